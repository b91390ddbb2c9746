//! Games with several jobs.
use std::alloc::AllocError;
use xg_test_data::node;
use xg_test_data::nodes::LEAF;
use xg_tree::{Kind, Node};

/// Three jobs of two leaves each.
pub(crate) static THREE_JOBS: [Node; 10] = [
    node!(Chance, 1, 3),
    node!(One, 1, 2),
    LEAF,
    LEAF,
    node!(One, 2, 2),
    LEAF,
    LEAF,
    node!(One, 3, 2),
    LEAF,
    LEAF,
];

pub(crate) static THREE_JOBS_WEIGHTS: [i64; 6] = [1, 2, 3, 4, 5, 6];

/// Three deals that nobody sees, after each of which both players choose once, and don't see each other's choice.
pub(crate) static THREE_DEALS: [Node; 22] = [
    node!(Chance, 1, 3),
    node!(One, 1, 2),
    node!(Two, 1, 2),
    LEAF,
    LEAF,
    node!(Two, 1, 2),
    LEAF,
    LEAF,
    node!(One, 1, 2),
    node!(Two, 1, 2),
    LEAF,
    LEAF,
    node!(Two, 1, 2),
    LEAF,
    LEAF,
    node!(One, 1, 2),
    node!(Two, 1, 2),
    LEAF,
    LEAF,
    node!(Two, 1, 2),
    LEAF,
    LEAF,
];

pub(crate) static THREE_DEALS_WEIGHTS: [i64; 12] = [2, -2, 4, -6, -2, 2, 4, -4, 0, 0, 1, 0];

/// Puts what comes after a deal, from player one's first set, her later one, and player two's sets after a check and
/// after a bet: a check or a bet, and the answers to them.
fn put_deal(nodes: &mut Vec<Node>, sets: [u32; 4]) -> Result<(), AllocError> {
    let [first, later, checked, bet] = sets;
    nodes.extend_from_slice(&[
        node!(One, first, 2),
        node!(Two, checked, 2),
        LEAF,
        node!(One, later, 2),
        LEAF,
        LEAF,
        node!(Two, bet, 2),
        LEAF,
        LEAF,
    ])
}

/// Puts a card of player one: the chance node of player two's, and both deals.
fn put_card(nodes: &mut Vec<Node>, chance: u32, deals: [[u32; 4]; 2]) -> Result<(), AllocError> {
    nodes.push(node!(Chance, chance, 2))?;
    put_deal(nodes, deals[0])?;
    put_deal(nodes, deals[1])
}

/// Puts one-card poker with three cards.
pub(crate) fn put_kuhn(nodes: &mut Vec<Node>) -> Result<(), AllocError> {
    nodes.push(node!(Chance, 1, 3))?;
    put_card(nodes, 2, [[1, 2, 1, 2], [1, 2, 3, 4]])?;
    put_card(nodes, 3, [[3, 4, 5, 6], [3, 4, 3, 4]])?;
    put_card(nodes, 4, [[5, 6, 5, 6], [5, 6, 1, 2]])
}

/// What each leaf pays player one, deal by deal: both check; a bet is folded to or called, after a check or at once.
pub(crate) static KUHN_WEIGHTS: [i64; 30] = [
    -1, -1, -2, 1, -2, -1, -1, -2, 1, -2, 1, -1, 2, 1, 2, -1, -1, -2, 1, -2, 1, -1, 2, 1, 2, 1, -1,
    2, 1, 2,
];

const HALF: u64 = 524_288;

const QUARTER: u64 = 262_144;

/// Both players' plans of the first round.
pub(crate) static KUHN_ONE: [u64; 13] = [
    1_048_576, HALF, HALF, QUARTER, QUARTER, HALF, HALF, QUARTER, QUARTER, HALF, HALF, QUARTER,
    QUARTER,
];

pub(crate) static KUHN_TWO: [u64; 13] = [
    1_048_576, HALF, HALF, HALF, HALF, HALF, HALF, HALF, HALF, HALF, HALF, HALF, HALF,
];
