//! The jobs into which the sum over a game's leaves is cut.

/// The most jobs of a game.
pub const MOST_JOBS: usize = 4096;

/// The most passes that cut jobs.
pub const MOST_PASSES: usize = 64;
