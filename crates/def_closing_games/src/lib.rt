//! How far apart the ends of a bracket can be, by the range of a game's payoffs, and what is promised of it before its
//! rounds are played. There is no code here; each function's contract is a law, or rows that the definitions give.
#![tactic(auto)]

ghost use Rattle.def_closing_games.specs.Laws.{EveryBracketCloses, FilesClose, PayoffsAreInRange, PayoffsBoundPay};
ghost use Rattle.def_closing_games.specs.Laws.{PlusFilesClose, PrintedBracketsClose, PrintedPlusBracketsClose};
ghost use Rattle.def_closing_games.specs.Laws.{PromisesAreKept};
ghost use Rattle.def_closing_games.specs.Rows.{PromiseRows};

/// Two plans pay no less than the least payoff of a leaf, and no more than the greatest.
pub fn payoffs_bound_pay()
    ensures { PayoffsBoundPay }
{}

/// On the game of every file without a fault the bracket of a run is no wider than the range of payoffs allows.
pub fn files_close()
    ensures { FilesClose }
{}

/// The same of a run of CFR+.
pub fn plus_files_close()
    ensures { PlusFilesClose }
{}

/// In payoff units: HIGH less LOW is at most the width over the unit, the scale and the rounds.
pub fn printed_brackets_close()
    ensures { PrintedBracketsClose }
{}

/// The same of a run of CFR+.
pub fn printed_plus_brackets_close()
    ensures { PrintedPlusBracketsClose }
{}

/// On every file's game, whatever its payoffs range over, HIGH less LOW is at most the width that its form tells.
pub fn every_bracket_closes()
    ensures { EveryBracketCloses }
{}

/// The payoffs of a game lie within its range, which is computed.
pub fn payoffs_are_in_range()
    ensures { PayoffsAreInRange }
{}

/// What is promised of a file's game, from its numbers alone, is kept by the bracket of each run of both variants.
pub fn promises_are_kept()
    ensures { PromisesAreKept }
{}

/// Rows: what is promised of matching pennies for a coin, of a choice between two tosses, and of a game of chances.
pub fn promise_rows()
    ensures { PromiseRows }
{}
