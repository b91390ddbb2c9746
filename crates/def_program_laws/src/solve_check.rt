//! What `solve` writes of an accepted file's game is accepted by `check`, and so is what `drill` and `upgrade` write.
//! There is no code here: the functions' contracts are laws of the definitions, which stand in `specs/`.

ghost use Rattle.def_program_laws.specs.SolveLaws.{AcceptedTextsAreShort, OldTextsAreAccepted, PlusTextsAreRefused};
ghost use Rattle.def_program_laws.specs.SolveLaws.{SolvedTextsAreAccepted, SolvedTextsAreShort};
ghost use Rattle.def_program_laws.specs.SolveLaws.{UpgradedTextsAreAcceptedAgain, WhatDrillWritesCheckAccepts};
ghost use Rattle.def_program_laws.specs.SolveLaws.{WhatSolveWritesCheckAccepts, WhatUpgradeWritesCheckAccepts};

/// The text of `solve` of an accepted file is accepted against that file: with its bounds, and without a round with its
/// head alone.
pub fn solved_texts_are_accepted()
    ensures { SolvedTextsAreAccepted }
{}

/// The text of version 1 of the same certificate is accepted too, with the same verdict.
pub fn old_texts_are_accepted()
    ensures { OldTextsAreAccepted }
{}

/// No accepted certificate is too long, whoever wrote it.
pub fn accepted_texts_are_short()
    ensures { AcceptedTextsAreShort }
{}

/// No text of `solve` of an accepted file is too long for a certificate.
pub fn solved_texts_are_short()
    ensures { SolvedTextsAreShort }
{}

/// No text of `plus` is accepted: a check against any accepted file finds its first byte wrong.
pub fn plus_texts_are_refused()
    ensures { PlusTextsAreRefused }
{}

/// The upgrade of an accepted text, whoever wrote that, is accepted with the same verdict, is its own upgrade, and
/// isn't too long for a certificate.
pub fn upgraded_texts_are_accepted_again()
    ensures { UpgradedTextsAreAcceptedAgain }
{}

/// Where `solve` writes a text, `check` of the same file and that text ends with status 0 and says what it shows.
pub fn what_solve_writes_check_accepts()
    ensures { WhatSolveWritesCheckAccepts }
{}

/// Where `drill` writes a text, `check` of what `gen` writes for as many cards and that text ends with status 0 and
/// says what it shows.
pub fn what_drill_writes_check_accepts()
    ensures { WhatDrillWritesCheckAccepts }
{}

/// Where `upgrade` writes a text of a certificate, `check` of the same file and that text ends with status 0 and says
/// what the certificate shows, and `upgrade` of both writes the same text.
pub fn what_upgrade_writes_check_accepts()
    ensures { WhatUpgradeWritesCheckAccepts }
{}
