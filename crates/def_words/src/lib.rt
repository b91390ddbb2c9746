//! Rows as atomic words, in definitions alone: seats claim the numbers of jobs from one word and add what these bring
//! to the words of the rows. Its laws and worked rows are in `def_history_laws`.
#![tactic(auto)]

mod view;

pub use view::View;
