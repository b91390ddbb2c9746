//! Trees by their nodes in order, with the weights of their leaves.
use xg_tree::{Kind, Node};

/// A node with its kind, the number of its set and the number of its children.
#[macro_export]
macro_rules! node {
    ($kind:ident, $set:expr, $children:expr) => {
        Node {
            kind: Kind::$kind,
            set: $set,
            outcome: 0,
            children: $children,
        }
    };
}

/// Whether both are the same node.
pub fn is_same_node(one: Node, other: Node) -> bool {
    one.kind == other.kind
        && one.set == other.set
        && one.outcome == other.outcome
        && one.children == other.children
}

pub const LEAF: Node = node!(Leaf, 0, 0);

/// Both players choose one of two sides, and player two doesn't see player one's.
pub static PENNIES: [Node; 7] = [
    node!(One, 1, 2),
    node!(Two, 1, 2),
    LEAF,
    LEAF,
    node!(Two, 1, 2),
    LEAF,
    LEAF,
];

pub static PENNIES_WEIGHTS: [i64; 4] = [1, -1, -1, 1];

/// At odds of one to three the game ends, or player one moves, then player two by three actions, or player one again.
pub static UNEQUAL_CHANCE: [Node; 10] = [
    node!(Chance, 1, 2),
    LEAF,
    node!(One, 1, 2),
    node!(Two, 1, 3),
    LEAF,
    LEAF,
    LEAF,
    node!(One, 2, 2),
    LEAF,
    LEAF,
];

pub static UNEQUAL_CHANCE_WEIGHTS: [i64; 6] = [-2, 3, 6, -9, 12, 0];

/// Player one chooses once, of two actions.
pub static ONE_CHOICE: [Node; 3] = [node!(One, 1, 2), LEAF, LEAF];

pub static ONE_CHOICE_WEIGHTS: [i64; 2] = [1, 0];

/// Player one chooses once, of three actions.
pub static ONE_OF_THREE: [Node; 4] = [node!(One, 1, 3), LEAF, LEAF, LEAF];

pub static ONE_OF_THREE_WEIGHTS: [i64; 3] = [0, 0, 0];
