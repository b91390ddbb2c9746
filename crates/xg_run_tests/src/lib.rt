#![tactic(auto)]
//! The tests of the program's run. They stand apart from it, since a crate with tests is proved twice.

#[cfg(test)]
mod calls;
#[cfg(test)]
mod counting_tests;
#[cfg(test)]
mod failing_tests;
#[cfg(test)]
mod sure_tests;
#[cfg(test)]
mod words_tests;
#[cfg(test)]
mod worker_tests;
