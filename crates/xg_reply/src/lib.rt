#![tactic(auto)]
//! Best replies in the sequence form, in one pass over a player's sets.

mod reply;
mod sets;

pub use def_tree::Player;
pub use reply::best_reply;
