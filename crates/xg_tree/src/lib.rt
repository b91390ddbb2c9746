#![tactic(auto)]
//! The tree of a game: nodes in prefix order, built one after the other, and walked depth first.

mod ancestors;
mod builder;
mod links;
mod sizes;
mod tree;
mod visitor;

pub use ancestors::Ancestors;
pub use builder::{Builder, PushFault};
pub use def_tree::{Kind, MOST_ACTIONS, MOST_NODES, Node, Player};
pub use tree::{Tree, is_leaf};
pub use visitor::Visitor;
