//! The nodes on the path that a walk stands at.
ghost use Rattle.std.specs.Prelude.{◌≡◌, ◌+◌, ◌<◌, ◌^◌};
ghost use Rattle.xg_scale.specs.OnPath.{at_action, empty_path};

use xg_frac::{Frac, one_over, zero};

/// The reach of a path, and what both players are paid on it.
#[derive(Clone, Copy)]
pub(crate) struct PathNumbers {
    pub(crate) reach: Frac,
    pub(crate) one: Frac,
    pub(crate) two: Frac,
}

/// A node on the path: its set where chance moves, and the action of its next child.
///
/// The numbers are those of the path to the node, with the node's own outcome.
#[derive(Clone, Copy)]
pub(crate) struct NodeOnPath {
    pub(crate) chance_set: Option<u32>,
    pub(crate) action: u32,
    pub(crate) numbers: PathNumbers,
}

/// What is around the whole tree.
pub(crate) fn empty_path() -> NodeOnPath
    ensures { result ≡ empty_path }
{
    NodeOnPath {
        chance_set: None,
        action: 1,
        numbers: PathNumbers {
            reach: one_over(1),
            one: zero(),
            two: zero(),
        },
    }
}

/// The node at its next action.
pub(crate) fn after_child(node: NodeOnPath) -> NodeOnPath
    requires { node.action + 1 < 2 ^ 32 }
    ensures { result ≡ at_action node (node.action + 1) }
{
    NodeOnPath {
        chance_set: node.chance_set,
        action: node.action + 1,
        numbers: node.numbers,
    }
}
