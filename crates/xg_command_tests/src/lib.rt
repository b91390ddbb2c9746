#![tactic(auto)]
//! The tests of the command's words. They stand apart, since a crate with tests is proved twice.

#[cfg(test)]
mod by_clap;
#[cfg(test)]
mod commands;
