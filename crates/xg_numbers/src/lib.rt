#![tactic(auto)]
//! A game in numbers: its sequence form with whole weights, or the first fault of its numbers and sets.

mod numbers;

pub use numbers::Numbers;
