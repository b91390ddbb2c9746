//! What holds of numbers, of the outside, of a game's tree and its numbers, and of its file: the laws and worked rows
//! of the definitions below `def_plan`, and of `def_payoffs`. Each module has the laws of the crate of its name,
//! `def_NAME`; a law or a row is the contract of a function without code. Nothing stands on this crate, so no proof of
//! the program waits for it.
#![tactic(auto)]

pub mod canon;
pub mod file;
pub mod file_form;
pub mod file_tokens;
pub mod fraction;
pub mod game_paths;
pub mod game_scale;
pub mod outside;
pub mod payoffs;
pub mod sums;
pub mod tree;
