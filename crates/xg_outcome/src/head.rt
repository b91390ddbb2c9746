//! The head of a run.

use xg_frac::Frac;

/// A game's numbers, and what was asked of a run.
///
/// A pair is one number for each player, player one's first. The sequences count the empty one.
#[derive(Clone, Copy)]
pub struct Head {
    pub nodes: u32,
    pub leaves: u32,
    pub sets: (u32, u32),
    pub sequences: (u32, u32),
    pub unit: u64,
    /// What each leaf pays both players together, in lowest terms.
    pub sum: Frac,
    pub mass: u64,
    pub rounds: u32,
    pub every: u32,
    pub scale: u32,
}
