//! Laws of `def_file`: what a game file stands for, how it is read, up to its first fault, and the game of all its
//! entries.

pub mod entries;

ghost use Rattle.def_file.specs.Laws.{ReadingTakesAnyLength};

/// Reading itself sets no limit to the number of bytes.
pub fn reading_takes_any_length()
    ensures { ReadingTakesAnyLength }
{}
