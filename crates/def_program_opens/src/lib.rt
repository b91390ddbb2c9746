//! Which names a command may ask the files for. There is no code here; the function's contract is a law.
#![tactic(auto)]

ghost use Rattle.def_program_opens.specs.Openings.{OpeningsAreRead};

/// Exactly the files that a command names, a certificate only where the game file isn't told to be too long.
pub fn openings_are_read()
    ensures { OpeningsAreRead }
{}
