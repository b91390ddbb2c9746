//! The ranges of a certificate's numbers, and what they bound.

/// The greatest size of an end, a total, a value and a part of the bracket.
pub const MOST_PRINTED: u128 = 1 << 100;
