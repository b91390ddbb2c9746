#![tactic(auto)]
//! The tests of rows, of their jobs and of the workers that add into them. They stand apart from the crates that they
//! test, since a crate with tests is proved twice.

#[cfg(test)]
mod board_tests;
#[cfg(test)]
mod games;
#[cfg(test)]
mod gates;
#[cfg(test)]
mod jobs_tests;
#[cfg(test)]
mod made;
#[cfg(test)]
mod rowcore_tests;
#[cfg(test)]
mod words_tests;
