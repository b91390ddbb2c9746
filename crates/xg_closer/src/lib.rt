#![tactic(auto)]
//! A player's rounds of regret matching: the regrets so far, the play that they make, and what a round adds to them.

mod closing;
mod cutting;
mod dividing;
mod playing;
mod regrets;
mod worths;

pub use closing::{close_round, close_small_round, leaf_sums_close_the_round};
pub use def_tree::Player;
pub use playing::play_into;
pub use regrets::Regrets;
