//! Exact fractions: the numbers that the solver reads from a file, computes payoffs and chances with,
//! and prints. Each part of a fraction in lowest terms is at most 2^62 in size, of a ratio 2^100. Nothing in this crate
//! takes memory.
#![tactic(auto)]

mod arithmetic;
mod fraction;
mod literal;
mod printing;
mod wide;

pub use arithmetic::{add, compare, lcm, mul, ratio};
pub use def_fraction::{MOST_PART, NumberFault};
pub use fraction::{Frac, OverLimit, one_over, whole, with_sign, zero};
pub use literal::{PAST, read_literal, read_whole};
pub use printing::{put_frac, put_int, put_ratio};
pub use wide::Ratio;
