//! Lines of progress: how a search stands, a line each time that it is said. Nothing in this crate takes memory.
#![tactic(auto)]

mod asked;
mod decimals;
mod line;

pub use asked::{AskedWidth, asked_width};
pub use line::{Progress, write_progress};
