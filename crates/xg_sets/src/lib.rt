#![tactic(auto)]
//! The information sets of a tree's players, and the number of each player's sequence at each node, where the players
//! remember their own choices.

mod building;
mod movers;
mod next_nodes;
mod sets;
mod table;

pub use building::{RecallFault, build_sets};
pub use def_tree::Player;
pub use sets::Sets;
