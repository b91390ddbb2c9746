#![tactic(auto)]
//! The rows of one player alone: for each of the player's sequences the sum over its leaves.

mod alone;
mod input;
mod table;
mod writing;

pub use table::{write_rows_of, write_small_rows_of};
