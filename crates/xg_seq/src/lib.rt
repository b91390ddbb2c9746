#![tactic(auto)]
//! The sequence form of a game: both players' sets and sequences, and the leaves with their weights, in flat tables.

mod form;
mod leaf;
mod leaves;
mod rows;
mod table;
mod threads;

pub use def_tree::Player;
pub use form::SeqForm;
pub use leaf::Leaf;
pub use table::SetPlace;
