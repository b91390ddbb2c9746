//! Reads a game from the bytes of its file, in Gambit's `.efg` format, which the manual's chapter "The extensive game
//! (.efg) file format" describes.
#![tactic(auto)]

mod entries;
mod game;
mod lists;
mod prologue;
mod reader;
mod values;
mod wanted;

pub use def_file::{FileFault, MOST_BYTES};
pub use def_fraction::NumberFault;
pub use game::read_game;
pub use xg_game::{Game, GameMaker, Refused};
pub use xg_record::{Action, Actions, EntryKind, Payoffs, Record};
