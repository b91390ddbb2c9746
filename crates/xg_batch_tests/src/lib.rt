#![tactic(auto)]
//! The tests of files that are solved side by side.

#[cfg(test)]
mod calls;
#[cfg(test)]
mod comparing;
#[cfg(test)]
mod counting;
#[cfg(test)]
mod tests;
