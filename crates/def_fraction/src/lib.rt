//! Definitions of exact fractions and of the number literals that stand for them. Its laws and worked rows are in
//! `def_game_laws`.
#![tactic(auto)]

mod fault;

pub use fault::NumberFault;

/// The greatest size of a part of a fraction in lowest terms.
pub const MOST_PART: u128 = 1 << 62;

/// The greatest numerator and denominator before reduction.
pub const MOST_WRITTEN: u128 = (1 << 127) - 1;

/// The greatest size of a part of a ratio: a fraction with large parts, in lowest terms.
pub const MOST_WIDE: u128 = 1 << 100;
