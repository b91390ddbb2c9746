//! The players and the nested tree of an extensive game, in definitions alone, and the plain data that its nodes hold.
//! Its laws and worked rows are in `def_game_laws`.
#![tactic(auto)]

/// The greatest number of actions of a set, and so of children of a node.
pub const MOST_ACTIONS: u32 = 1_024;

/// The greatest number of nodes of a tree.
pub const MOST_NODES: usize = 1_048_576;

/// One of the two players. Player one is paid, and player two pays.
#[derive(Clone, Copy, PartialEq, Eq)]
pub enum Player {
    One,
    Two,
}

/// Who moves at a node: chance, a player, or nobody at a leaf.
#[derive(Clone, Copy, PartialEq, Eq)]
pub enum Kind {
    Chance,
    One,
    Two,
    Leaf,
}

/// A node of a game's tree.
///
/// Information sets are numbered within their kind, and outcomes within the game; 0 stands for no set and for the null
/// outcome.
#[derive(Clone, Copy)]
pub struct Node {
    pub kind: Kind,
    pub set: u32,
    pub outcome: u32,
    pub children: u32,
}
