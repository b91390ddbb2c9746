//! The tables of a game: its nodes with their names, its sets and its outcomes, made from the entries of its file.
#![tactic(auto)]

mod actions;
mod fault;
mod game;
mod given;
mod maker;
mod numbers;
mod outcomes;
mod prologue;
mod seed;
mod sets;
mod table;
mod tables;
mod texts;

pub use def_file::FileFault;
pub use fault::Refused;
pub use game::Game;
pub use maker::GameMaker;
pub use xg_tree::{Kind, Player};
