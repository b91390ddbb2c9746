//! Small games with the links of their nodes and leaves.
use crate::node;
use crate::nodes::LEAF;
use xg_tree::{Kind, Node};

/// A game by its nodes in prefix order, and its links. Nodes, leaves and sets count from 1, sequences from 0; 0 stands
/// for no node and no leaf.
pub struct LinkedGame {
    pub nodes: &'static [Node],
    // one entry per node
    pub parents: &'static [u32],
    pub first_children: &'static [u32],
    pub next_siblings: &'static [u32],
    pub next_nodes: &'static [u32],
    pub one: PlayerLinks,
    pub two: PlayerLinks,
}

/// A player's threads: for each set its first node, for each sequence its first leaf, and for each leaf the next one.
pub struct PlayerLinks {
    pub first_nodes: &'static [u32],
    pub first_leaves: &'static [u32],
    pub next_leaves: &'static [u32],
}

/// One leaf.
const ONE_LEAF: LinkedGame = LinkedGame {
    nodes: &[LEAF],
    parents: &[0],
    first_children: &[0],
    next_siblings: &[0],
    next_nodes: &[0],
    one: PlayerLinks {
        first_nodes: &[],
        first_leaves: &[1],
        next_leaves: &[0],
    },
    two: PlayerLinks {
        first_nodes: &[],
        first_leaves: &[1],
        next_leaves: &[0],
    },
};

/// Both choose one of two sides, and player two doesn't see player one's.
const PENNIES_LINKS: LinkedGame = LinkedGame {
    nodes: &[
        node!(One, 1, 2),
        node!(Two, 1, 2),
        LEAF,
        LEAF,
        node!(Two, 1, 2),
        LEAF,
        LEAF,
    ],
    parents: &[0, 1, 2, 2, 1, 5, 5],
    first_children: &[2, 3, 0, 0, 6, 0, 0],
    next_siblings: &[0, 5, 4, 0, 0, 7, 0],
    next_nodes: &[0, 5, 0, 0, 0, 0, 0],
    one: PlayerLinks {
        first_nodes: &[1],
        first_leaves: &[0, 1, 3],
        next_leaves: &[2, 0, 4, 0],
    },
    two: PlayerLinks {
        first_nodes: &[2],
        first_leaves: &[0, 1, 2],
        next_leaves: &[3, 4, 0, 0],
    },
};

/// Chance under player one: leaves of no sequence of player two.
const CHANCE_BELOW: LinkedGame = LinkedGame {
    nodes: &[
        node!(One, 1, 2),
        node!(Chance, 1, 2),
        LEAF,
        LEAF,
        node!(Chance, 1, 2),
        LEAF,
        LEAF,
    ],
    parents: &[0, 1, 2, 2, 1, 5, 5],
    first_children: &[2, 3, 0, 0, 6, 0, 0],
    next_siblings: &[0, 5, 4, 0, 0, 7, 0],
    next_nodes: &[0, 0, 0, 0, 0, 0, 0],
    one: PlayerLinks {
        first_nodes: &[1],
        first_leaves: &[0, 1, 3],
        next_leaves: &[2, 0, 4, 0],
    },
    two: PlayerLinks {
        first_nodes: &[],
        first_leaves: &[1],
        next_leaves: &[2, 3, 4, 0],
    },
};

/// A chain of single actions of both players.
const SINGLE_ACTIONS: LinkedGame = LinkedGame {
    nodes: &[
        node!(One, 1, 1),
        node!(Two, 1, 1),
        node!(One, 2, 1),
        node!(Chance, 1, 1),
        LEAF,
    ],
    parents: &[0, 1, 2, 3, 4],
    first_children: &[2, 3, 4, 5, 0],
    next_siblings: &[0, 0, 0, 0, 0],
    next_nodes: &[0, 0, 0, 0, 0],
    one: PlayerLinks {
        first_nodes: &[1, 3],
        first_leaves: &[0, 0, 1],
        next_leaves: &[0],
    },
    two: PlayerLinks {
        first_nodes: &[2],
        first_leaves: &[0, 1],
        next_leaves: &[0],
    },
};

/// Leaves at every depth: leaves of the empty sequence of either player and of both.
const LEAVES_AT_EVERY_DEPTH: LinkedGame = LinkedGame {
    nodes: &[
        node!(Chance, 1, 3),
        LEAF,
        node!(One, 1, 2),
        LEAF,
        node!(Two, 1, 2),
        LEAF,
        LEAF,
        node!(Two, 1, 2),
        LEAF,
        node!(One, 2, 2),
        LEAF,
        LEAF,
    ],
    parents: &[0, 1, 1, 3, 3, 5, 5, 1, 8, 8, 10, 10],
    first_children: &[2, 0, 4, 0, 6, 0, 0, 9, 0, 11, 0, 0],
    next_siblings: &[0, 3, 8, 5, 0, 7, 0, 0, 10, 0, 12, 0],
    next_nodes: &[0, 0, 0, 0, 8, 0, 0, 0, 0, 0, 0, 0],
    one: PlayerLinks {
        first_nodes: &[3, 10],
        first_leaves: &[1, 2, 3, 6, 7],
        next_leaves: &[5, 0, 4, 0, 0, 0, 0],
    },
    two: PlayerLinks {
        first_nodes: &[5],
        first_leaves: &[1, 3, 4],
        next_leaves: &[2, 0, 5, 6, 0, 7, 0],
    },
};

/// Sets of nodes that stand far apart.
const SETS_FAR_APART: LinkedGame = LinkedGame {
    nodes: &[
        node!(Chance, 1, 3),
        node!(One, 1, 2),
        node!(Two, 1, 2),
        LEAF,
        LEAF,
        node!(Two, 1, 2),
        LEAF,
        LEAF,
        node!(One, 2, 2),
        node!(Two, 1, 2),
        LEAF,
        LEAF,
        node!(Two, 2, 2),
        LEAF,
        LEAF,
        node!(One, 1, 2),
        node!(Two, 2, 2),
        LEAF,
        LEAF,
        node!(Two, 1, 2),
        LEAF,
        LEAF,
    ],
    parents: &[
        0, 1, 2, 3, 3, 2, 6, 6, 1, 9, 10, 10, 9, 13, 13, 1, 16, 17, 17, 16, 20, 20,
    ],
    first_children: &[
        2, 3, 4, 0, 0, 7, 0, 0, 10, 11, 0, 0, 14, 0, 0, 17, 18, 0, 0, 21, 0, 0,
    ],
    next_siblings: &[
        0, 9, 6, 5, 0, 0, 8, 0, 16, 13, 12, 0, 0, 15, 0, 0, 20, 19, 0, 0, 22, 0,
    ],
    next_nodes: &[
        0, 16, 6, 0, 0, 10, 0, 0, 0, 20, 0, 0, 17, 0, 0, 0, 0, 0, 0, 0, 0, 0,
    ],
    one: PlayerLinks {
        first_nodes: &[2, 9],
        first_leaves: &[0, 1, 3, 5, 7],
        next_leaves: &[2, 9, 4, 11, 6, 0, 8, 0, 10, 0, 12, 0],
    },
    two: PlayerLinks {
        first_nodes: &[3, 13],
        first_leaves: &[0, 1, 2, 7, 8],
        next_leaves: &[3, 4, 5, 6, 11, 12, 9, 10, 0, 0, 0, 0],
    },
};

/// Chance within chance.
const CHANCE_WITHIN_CHANCE: LinkedGame = LinkedGame {
    nodes: &[
        node!(Chance, 1, 2),
        node!(Chance, 2, 3),
        LEAF,
        node!(One, 1, 2),
        LEAF,
        LEAF,
        LEAF,
        node!(One, 1, 2),
        LEAF,
        node!(Two, 1, 3),
        LEAF,
        LEAF,
        LEAF,
    ],
    parents: &[0, 1, 2, 2, 4, 4, 2, 1, 8, 8, 10, 10, 10],
    first_children: &[2, 3, 0, 5, 0, 0, 0, 9, 0, 11, 0, 0, 0],
    next_siblings: &[0, 8, 4, 7, 6, 0, 0, 0, 10, 0, 12, 13, 0],
    next_nodes: &[0, 0, 0, 8, 0, 0, 0, 0, 0, 0, 0, 0, 0],
    one: PlayerLinks {
        first_nodes: &[4],
        first_leaves: &[1, 2, 3],
        next_leaves: &[4, 5, 6, 0, 0, 7, 8, 0],
    },
    two: PlayerLinks {
        first_nodes: &[10],
        first_leaves: &[1, 6, 7, 8],
        next_leaves: &[2, 3, 4, 5, 0, 0, 0, 0],
    },
};

/// A set of player one that is met again below chance, and moves after moves.
const MET_AGAIN: LinkedGame = LinkedGame {
    nodes: &[
        node!(Two, 1, 2),
        node!(Chance, 1, 2),
        node!(One, 1, 2),
        LEAF,
        node!(One, 2, 2),
        LEAF,
        LEAF,
        node!(One, 1, 2),
        node!(Two, 2, 2),
        LEAF,
        LEAF,
        node!(One, 2, 2),
        LEAF,
        LEAF,
        node!(One, 1, 2),
        LEAF,
        node!(One, 2, 2),
        LEAF,
        node!(Two, 3, 1),
        LEAF,
    ],
    parents: &[
        0, 1, 2, 3, 3, 5, 5, 2, 8, 9, 9, 8, 12, 12, 1, 15, 15, 17, 17, 19,
    ],
    first_children: &[
        2, 3, 4, 0, 6, 0, 0, 9, 10, 0, 0, 13, 0, 0, 16, 0, 18, 0, 20, 0,
    ],
    next_siblings: &[
        0, 15, 8, 5, 0, 7, 0, 0, 12, 11, 0, 0, 14, 0, 0, 17, 0, 19, 0, 0,
    ],
    next_nodes: &[
        0, 0, 8, 0, 12, 0, 0, 15, 0, 0, 0, 17, 0, 0, 0, 0, 0, 0, 0, 0,
    ],
    one: PlayerLinks {
        first_nodes: &[3, 5],
        first_leaves: &[0, 1, 0, 2, 3],
        next_leaves: &[4, 6, 7, 5, 8, 9, 10, 0, 0, 0],
    },
    two: PlayerLinks {
        first_nodes: &[1, 9, 19],
        first_leaves: &[0, 1, 8, 4, 5, 10],
        next_leaves: &[2, 3, 6, 0, 0, 7, 0, 9, 0, 0],
    },
};

/// All of them.
pub static LINKED_GAMES: [LinkedGame; 8] = [
    ONE_LEAF,
    PENNIES_LINKS,
    CHANCE_BELOW,
    SINGLE_ACTIONS,
    LEAVES_AT_EVERY_DEPTH,
    SETS_FAR_APART,
    CHANCE_WITHIN_CHANCE,
    MET_AGAIN,
];
