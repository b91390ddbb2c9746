#![tactic(auto)]
//! The tests of the search. They stand apart from it, since a crate with tests is proved twice.

#[cfg(test)]
mod tests;
