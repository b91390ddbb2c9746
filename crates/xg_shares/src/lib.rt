//! Shares of a number in proportion to weights, for tests: the programs deal by plays and by regrets.
#![tactic(auto)]

mod shares;

pub use shares::shares_into;
