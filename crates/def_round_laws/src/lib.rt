//! What holds of rounds and runs, plain ones and those of CFR+. Each module has the laws of the crate of its name,
//! `def_NAME`; a law or a row is the contract of a function without code. Nothing stands on this crate, so no proof of
//! the program waits for it.
#![tactic(auto)]

pub mod plus;
pub mod plus_run;
pub mod round;
pub mod run;
