#![tactic(auto)]
//! The tests of the lowest crates: numbers, tokens, the outside, pages and entries. They stand apart from these, since
//! a crate with tests is proved twice.

#[cfg(test)]
mod frac_tests;
#[cfg(test)]
mod io_tests;
#[cfg(test)]
mod lex_tests;
#[cfg(test)]
mod page_tests;
#[cfg(test)]
mod real_tests;
#[cfg(test)]
mod record_tests;
