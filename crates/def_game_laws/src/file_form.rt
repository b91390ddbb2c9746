//! Laws of `def_file_form`: the form of a game file as a relation in the format's own words, and its first fault by
//! what could stand in its place.

pub mod fault;

ghost use Rattle.def_file_form.specs.Laws.{AcceptedIsFile, FileIsAccepted, OneReading, StandsForWholeGame};

/// No bytes are a file with two prologues, or with two lists of entries.
pub fn one_reading()
    ensures { OneReading }
{}

/// What is accepted has a reading without a fault, and stands for its game.
pub fn accepted_is_file()
    ensures { AcceptedIsFile }
{}

/// A file whose entries have no fault is accepted, as the game of its reading.
pub fn file_is_accepted()
    ensures { FileIsAccepted }
{}

/// The game that a file stands for is whole: its sets and outcomes go with its tree, and its fractions are in lowest
/// terms, within the limit.
pub fn stands_for_whole_game()
    ensures { StandsForWholeGame }
{}
