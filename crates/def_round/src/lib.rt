//! Shares of whole units, plays by regret matching in whole units, and the rounds that they are dealt in. Its laws and
//! worked rows are in `def_round_laws`.
#![tactic(auto)]

/// The units that each set is played in.
pub const UNITS: u32 = 65_536;
