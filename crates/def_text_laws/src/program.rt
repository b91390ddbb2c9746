//! Laws of `def_program`: what the program means: the texts that it writes, what a call's words and files decide, and
//! what holds of each call.

pub mod texts;

ghost use Rattle.def_program.specs.Laws.{AcceptedCertificatesHold, MeaningIsComputed, PlayedGamesHaveTheirBounds};
ghost use Rattle.def_program.specs.Laws.{ToldWordsMeanOne, UpgradesAreWritten};

/// The words mean, in the format's own words, exactly the answer that the program computes of them.
pub fn meaning_is_computed()
    ensures { MeaningIsComputed }
{}

/// Words whose files are told mean exactly one answer.
pub fn told_words_mean_one()
    ensures { ToldWordsMeanOne }
{}

/// What `upgrade` writes of the text of a certificate is the text of its upgrade, in version 2.
pub fn upgrades_are_written()
    ensures { UpgradesAreWritten }
{}

/// After at least one round both printed plans of an accepted file's game keep their bounds, which the printed replies
/// attain; no trace line is wider than an earlier one; the gap is the total exploitability; and no plan does better.
pub fn played_games_have_their_bounds()
    ensures { PlayedGamesHaveTheirBounds }
{}

/// What an accepted certificate prints holds of the file's game, whoever wrote it: both plans keep their bounds, which
/// the printed replies attain; no trace line is wider than an earlier one; the gap is the total exploitability; and no
/// plan does better.
pub fn accepted_certificates_hold()
    ensures { AcceptedCertificatesHold }
{}
