//! What is said of a search while it goes on: decimals, and lines of progress. There is no code here: the functions'
//! contracts are rows that the definitions give.
#![tactic(auto)]

ghost use Rattle.def_progress.specs.Rows.{DecimalRows, LineRow};

/// Rows: a decimal below 1, one above it, one whose last place is 0, and a whole number.
pub fn decimal_rows()
    ensures { DecimalRows }
{}

/// Row: a line of progress.
pub fn line_row()
    ensures { LineRow }
{}
