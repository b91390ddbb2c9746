//! Laws of `def_check`: accepted files with their games in numbers, and what the check of a certificate against a file
//! answers.

pub mod accepting;

ghost use Rattle.def_check.specs.Laws.{AcceptedChecksAreShown, ChecksAreComputed, HeadAloneExactlyWithoutRounds};
ghost use Rattle.def_check.specs.Laws.{NoBytesAreTooLong, WhatIsAcceptedIsShown};

/// What the verdict on a certificate says is shown by its text, whoever wrote it.
pub fn what_is_accepted_is_shown()
    ensures { WhatIsAcceptedIsShown }
{}

/// The verdict shows the head alone exactly where no round was asked.
pub fn head_alone_exactly_without_rounds()
    ensures { HeadAloneExactlyWithoutRounds }
{}

/// What is computed of the bytes of a file that isn't too long, and of a certificate, is what the words of files, texts
/// and tests say.
pub fn checks_are_computed()
    ensures { ChecksAreComputed }
{}

/// What is accepted is shown of the file's game, whoever wrote the certificate.
pub fn accepted_checks_are_shown()
    ensures { AcceptedChecksAreShown }
{}

/// That the file is too long is said by its length alone, and of no bytes that are checked.
pub fn no_bytes_are_too_long()
    ensures { NoBytesAreTooLong }
{}
