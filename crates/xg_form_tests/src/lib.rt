#![tactic(auto)]
//! The tests of a game in numbers and of strategies in the sequence form. They stand apart from the crates that they
//! test, since a crate with tests is proved twice.

#[cfg(test)]
mod adding_tests;
#[cfg(test)]
mod bracket_tests;
#[cfg(test)]
mod closer_tests;
#[cfg(test)]
mod cut_tests;
#[cfg(test)]
mod links_tests;
#[cfg(test)]
mod made;
#[cfg(test)]
mod plan_tests;
#[cfg(test)]
mod reply_tests;
#[cfg(test)]
mod scale_tests;
#[cfg(test)]
mod seq_tests;
#[cfg(test)]
mod sets_tests;
