#![tactic(auto)]
//! The words that the program is called with, and the command that they name. Reading them takes no memory.

mod command;
mod names;
mod options;
mod plain;
mod reading;
mod words;

pub use command::Command;
pub use def_command::{RowSettings, Settings};
pub use plain::PlainWords;
pub use words::Words;
