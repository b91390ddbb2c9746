//! All that the program does, from its words to its exit status.
#![tactic(auto)]

mod batch;
mod both;
mod check;
mod check_lines;
mod ending;
mod given;
mod program;

pub use given::{given_words, status_without_words};
pub use program::run;
pub use xg_command::Words;
