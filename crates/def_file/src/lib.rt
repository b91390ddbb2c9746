//! What a game file stands for, how it is read, up to its first fault, and the game of all its entries. Its laws and
//! worked rows are in `def_game_laws`.
#![tactic(auto)]

use def_fraction::NumberFault;

/// The greatest number of bytes of a game file.
pub const MOST_BYTES: usize = 67_108_864;

/// The first fault of a game file. Offsets count bytes from 0, and nodes count entries from 1.
#[derive(Clone, Copy)]
pub enum FileFault {
    /// The file has more than 67,108,864 bytes.
    TooLong,
    /// A token that the grammar can't take, or a byte that begins no token.
    Syntax { at: usize },
    /// The end stands where a token is needed, or a text isn't closed.
    UnexpectedEnd,
    /// Something stands behind the last entry of the tree.
    TrailingText { at: usize },
    /// A number that is needed isn't of its form, has the denominator 0, or is out of range.
    Number { at: usize, fault: NumberFault },
    /// The prologue has other than two players.
    Players { count: u32 },
    /// The player's number isn't 1 or 2.
    PlayerNumber { node: u32 },
    /// A set's first mention has no actions.
    SetUndefined { node: u32 },
    /// A later description of a set differs from what is kept of it.
    SetMismatch { node: u32 },
    /// An outcome's first mention has no payoffs.
    OutcomeUndefined { node: u32 },
    /// A later description of an outcome differs from what is kept of it.
    OutcomeMismatch { node: u32 },
    /// A first list of payoffs has other than two.
    PayoffCount { node: u32 },
    /// The entry is node 1,048,577.
    TooManyNodes,
    /// A first list of actions has none, or more than 1,024.
    ActionCount { node: u32 },
    /// A probability is below 0.
    ChanceNegative { node: u32 },
    /// A set's probabilities don't add up to 1.
    ChanceSum { node: u32 },
    /// A leaf's payoffs don't add up to what the first leaf's do.
    NotConstantSum { node: u32 },
    /// The own choices before a node differ from those before an earlier node of its set.
    NotRecall { node: u32, earlier: u32 },
    /// A number passes its limit.
    Scale { node: u32 },
}

/// Who moves at an entry: chance, a player, or nobody at a leaf.
#[derive(Clone, Copy)]
pub enum EntryKind {
    Chance,
    Personal,
    Leaf,
}
