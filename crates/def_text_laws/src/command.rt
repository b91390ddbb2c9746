//! Laws of `def_command`: the words that the program is called with, in definitions alone.

ghost use Rattle.def_command.specs.GrammarLaws.{CallsAreComputed, CardsAreInRange, FilesAreInRange, SettingsAreInRange};
ghost use Rattle.def_command.specs.GrammarLaws.{WordsCallOne};
ghost use Rattle.def_command.specs.GrammarRows.{RefusedRows, TakenRows};

/// The command that is computed from words is exactly the one that they are a call of.
pub fn calls_are_computed()
    ensures { CallsAreComputed }
{}

/// Words are a call of at most one command.
pub fn words_call_one()
    ensures { WordsCallOne }
{}

/// The settings of a command that is computed, and the number of workers that it is given, are in the ranges of their
/// options.
pub fn settings_are_in_range()
    ensures { SettingsAreInRange }
{}

/// The number of cards of a command that is computed is in its range.
pub fn cards_are_in_range()
    ensures { CardsAreInRange }
{}

/// A batch that is computed has a file, and no more than its most.
pub fn files_are_in_range()
    ensures { FilesAreInRange }
{}

/// Rows: words that are taken, with their command.
pub fn taken_rows()
    ensures { TakenRows }
{}

/// Rows: words that aren't taken.
pub fn refused_rows()
    ensures { RefusedRows }
{}
