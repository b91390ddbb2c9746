//! What a certificate says, the ranges of its numbers, the tests that it must pass, what an accepted one shows, and
//! verdicts on certificates of small games. Its laws and worked rows are in `def_text_laws`.
#![tactic(auto)]

mod fault;
pub mod ranges;

pub use fault::{TestFault, Which};
