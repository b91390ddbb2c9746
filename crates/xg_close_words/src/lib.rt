//! The words of a call of `xg_close`, as `clap` reads them. What it says of words that it doesn't take, of `--help` and
//! of
//! `--version`, is its own: nothing is promised of these texts.
#![tactic(auto)]

mod asked;
mod command;
mod given;
mod reading;

pub use asked::{Asked, MOST_ROUNDS, USUAL_ROUNDS};
pub use given::{given_words, say};
pub use reading::read_words;
