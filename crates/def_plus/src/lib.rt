//! Rounds of CFR+ (Tammelin 2014): regrets that are cut at 0, plans that count as many times as the number of their
//! round, and the sums that they make. Its laws and worked rows are in `def_round_laws`.
#![tactic(auto)]

/// The most rounds of CFR+.
pub const MOST_PLUS_ROUNDS: u32 = 2_048;

/// The greatest scale of CFR+, which is the root of each round's plans.
pub const MOST_PLUS_SCALE: u32 = 16_384;

/// Which rounds are played.
#[derive(Clone, Copy)]
pub enum Variant {
    /// Rounds of counterfactual regret minimisation, each of which weighs 1 (Zinkevich, Johanson, Bowling and Piccione
    /// 2007).
    Plain,
    /// Rounds of CFR+, of which the n-th weighs n (Tammelin 2014).
    Plus,
}
