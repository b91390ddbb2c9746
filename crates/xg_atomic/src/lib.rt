//! A table of atomic words: a claim word, and two words for each row. Seats claim numbers and add what these bring,
//! each by one step that waits for nobody.
#![tactic(auto)]

mod rule;
mod steps;

pub use rule::WordRule;
pub use steps::{SharedWords, WordSeat, WordTable, add, claim, close, join, open, split};
