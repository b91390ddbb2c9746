//! How far apart the ends of a bracket can be that words print, before a round is played. There is no code here; each
//! function's contract is a law, or rows that the definitions give.
#![tactic(auto)]

ghost use Rattle.def_closing_program.specs.Promises.{WrittenBracketsKeepTheirPromises};
ghost use Rattle.def_closing_program.specs.Rows.{KuhnPromises};

/// At status 0 each bracket that was written, of whatever command, game and settings, is within what was promised.
pub fn written_brackets_keep_their_promises()
    ensures { WrittenBracketsKeepTheirPromises }
{}

/// Rows: what is promised of Kuhn poker.
pub fn kuhn_promises()
    ensures { KuhnPromises }
{}
