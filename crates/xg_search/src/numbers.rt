//! The units of rounds, and sums that are cut to their words.
//!
//! No cut ever takes effect in a game that a file can hold, of a mass of at most 2^62, in 2^22 rounds: a leaf sum is
//! at most the mass times 2^36 and is shifted to 2^60 at most; so are the worths of sequences, the values of sets and
//! what a regret grows by. A regret of 2^61 is halved with those of its set. The weight of a round is at most 2^20, and
//! the sums of a lane are shifted back at each doubling of its rounds, so that they stay below 2^80.
use def_sums::MOST_ROOT;

/// How many bits the units of a play have: a set's actions share 2^27 of them.
pub(crate) const PLAY_BITS: u32 = 27;

/// All units of a set.
pub(crate) const UNITS: u32 = 1 << PLAY_BITS;

/// The root of all plans of the search.
pub(crate) const ROOT: u64 = MOST_ROOT;

/// A sum that is cut to 64 bits.
pub(crate) fn plus(a: i64, b: i64) -> i64 {
    a.saturating_add(b)
}

/// A difference that is cut to 64 bits.
pub(crate) fn minus(a: i64, b: i64) -> i64 {
    a.saturating_sub(b)
}

/// A number that is cut to 64 bits.
pub(crate) fn cut(n: i128) -> i64 {
    n.clamp(i64::MIN as i128, i64::MAX as i128) as i64
}
