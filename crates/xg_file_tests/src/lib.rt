#![tactic(auto)]
//! The tests of the crates of files: the tree, its game, how a file is read and how one is made. They stand apart from
//! these, since a crate with tests is proved twice.

#[cfg(test)]
mod game_tests;
#[cfg(test)]
mod games;
#[cfg(test)]
mod gen_tests;
#[cfg(test)]
mod read_tests;
#[cfg(test)]
mod tree_tests;
