//! More worked rows of the whole program, from the words of a call and the bytes of files to the bytes of the answer: a
//! game whose payoffs add up to 7, one-card poker of three, four and five cards, a batch of ten files, and a canonical
//! form. There is no code here; each function's contract is rows that the definitions give.
#![tactic(auto)]

ghost use Rattle.def_program_rows.specs.Rows.{FiveCardRows, FourCardRows, ThreeCardRows};
ghost use Rattle.def_program_rows.specs.Rows.{OutcomeRows, SumRows, TenFileRows};

/// Rows: `info` and `solve` of a leaf that pays 3 and 4.
pub fn sum_rows()
    ensures { SumRows }
{}

/// Row: `drill` of three cards without a round.
pub fn three_card_rows()
    ensures { ThreeCardRows }
{}

/// Row: of four cards.
pub fn four_card_rows()
    ensures { FourCardRows }
{}

/// Row: of five cards.
pub fn five_card_rows()
    ensures { FiveCardRows }
{}

/// Row: `batch` of ten files, the last of which has a number of two digits.
pub fn ten_file_rows()
    ensures { TenFileRows }
{}

/// Row: the canonical form of a game with outcomes of greater numbers.
pub fn outcome_rows()
    ensures { OutcomeRows }
{}
