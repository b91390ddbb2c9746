//! What holds of jobs, of the history of additions of several workers, and of rows as atomic words. Each module has
//! the laws of the crate of its name, `def_NAME`; a law or a row is the contract of a function without code. Nothing
//! stands on this crate, so no proof of the program waits for it.
#![tactic(auto)]

pub mod history;
pub mod words;
