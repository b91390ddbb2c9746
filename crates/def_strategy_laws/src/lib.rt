//! What holds of plans, of the sequence form, of replies and of the numbers of a file's game, one-card poker's among
//! them. Each module has the laws of the crate of its name, `def_NAME`; a law or a row is the contract of a function
//! without code. Nothing stands on this crate, so no proof of the program waits for it.
#![tactic(auto)]

pub mod constant_sum;
pub mod game_numbers;
pub mod plan;
pub mod poker;
pub mod reply;
pub mod sequence_form;
