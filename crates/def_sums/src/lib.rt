//! Sums over lists, the signed numbers as a ring, and division that rounds down: what the definitions of the solver
//! stand on; and the limits of a run, each once: `specs/Limits` cites them. Its laws and worked rows are in
//! `def_game_laws`.
#![tactic(auto)]

/// The greatest mass of a game: the sizes of all its weights together.
pub const MOST_MASS: u64 = 1 << 62;

/// The most rounds of a run, and rounds between evaluations.
pub const MOST_ROUNDS: u32 = 65_536;

/// The greatest scale, which is the root of each round's plans.
pub const MOST_SCALE: u32 = 1_048_576;

/// The greatest root of a sum of plans.
pub const MOST_ROOT: u64 = MOST_ROUNDS as u64 * MOST_SCALE as u64;

/// The most workers of a run.
pub const MOST_WORKERS: u32 = 64;

/// The most stripes of the rows that workers add into.
pub const MOST_STRIPES: u32 = 64;

/// One past the greatest number whose product with all units of a play has room in 64 bits with a sign.
pub const PAST_DEALT: u128 = 1 << 47;

/// The greatest sizes that are kept in 64 bits: of all rows together, and of a regret.
pub const MOST_SMALL_ROWS: u64 = 1 << 62;

/// The fewest cards of one-card poker.
pub const LEAST_CARDS: u32 = 2;

/// The most cards of one-card poker.
pub const MOST_CARDS: u32 = 64;
