//! Worked rows of the whole program: from the words of a call and the bytes of the files to the bytes of the answer,
//! with its lines and its limits in plain numbers. There is no code here: each function's contract is rows that the
//! definitions give, or a law of them.

ghost use Rattle.def_program_laws.specs.Calls.{CheckRows, InfoRows, MadeGameRows, SolveRows, UnansweredRows};
ghost use Rattle.def_program_laws.specs.Calls.{BatchRows, PlusRows, UpgradeRows};
ghost use Rattle.def_program_laws.specs.Games.{CanonicalRows, PokerFaultRows, PokerGameRows};
ghost use Rattle.def_program_laws.specs.Limits.{LimitRows};
ghost use Rattle.def_program_laws.specs.Lines.{OtherFaultLineRows, StatusesHaveTheirLines};
ghost use Rattle.def_program_laws.specs.Ranges.{BoundRangeRows, HeadRangeRows};

/// Rows: `solve` of matching pennies, with three choices of rounds, evaluations and scale, and of a file with a fault.
pub fn solve_rows()
    ensures { SolveRows }
{}

/// Rows: `plus` of matching pennies and of a file with a fault, more rounds than are taken, and `check` of its text.
pub fn plus_rows()
    ensures { PlusRows }
{}

/// Rows: `batch` of three files, of which one has a fault, of no file, and of one that isn't told.
pub fn batch_rows()
    ensures { BatchRows }
{}

/// Rows: `check` of certificates of both versions that are accepted, of one whose second bracket isn't what the sum
/// leaves, of one of another game, of bytes that are none, and of a file with a fault.
pub fn check_rows()
    ensures { CheckRows }
{}

/// Rows: `upgrade` of certificates of both versions, also without a round, of two that aren't accepted, of bytes that
/// are none, and of a file with a fault.
pub fn upgrade_rows()
    ensures { UpgradeRows }
{}

/// Rows: `info` of a game whose names have quotation marks.
pub fn info_rows()
    ensures { InfoRows }
{}

/// Rows: `gen` and `drill` of poker with two cards.
pub fn made_game_rows()
    ensures { MadeGameRows }
{}

/// Rows: words that aren't taken, and files that aren't told, of which there is no answer.
pub fn unanswered_rows()
    ensures { UnansweredRows }
{}

/// Rows: one-card poker with three cards is Kuhn's game, and with two it has no fault.
pub fn poker_game_rows()
    ensures { PokerGameRows }
{}

/// Row: one-card poker with three cards has no fault.
pub fn poker_fault_rows()
    ensures { PokerFaultRows }
{}

/// Row: the canonical form of a game with a set that comes again, and outcomes at nodes that are no leaves.
pub fn canonical_rows()
    ensures { CanonicalRows }
{}

/// Rows: the lines of the faults of a file that no row of def_program says.
pub fn other_fault_line_rows()
    ensures { OtherFaultLineRows }
{}

/// Each status from 2 to 5 has one line, and a line goes with no other status but 1.
pub fn statuses_have_their_lines()
    ensures { StatusesHaveTheirLines }
{}

/// Rows: the limits of bytes, cards, evaluations and scale as plain numbers.
pub fn limit_rows()
    ensures { LimitRows }
{}

/// Rows: the numbers of a certificate's head at the ends of their ranges, and past them.
pub fn head_range_rows()
    ensures { HeadRangeRows }
{}

/// Rows: the numbers below the head at the ends of their ranges, and past them.
pub fn bound_range_rows()
    ensures { BoundRangeRows }
{}
