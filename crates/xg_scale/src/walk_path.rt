//! The path to the node that a walk stands at.
ghost use Rattle.std.specs.Prelude.{◌≡◌, [], ◌∷◌, OnOk};
ghost use Rattle.xg_scale.specs.OnPath.{GoesBackTo, HasNodeAround, PathNodes, empty_path, entered_node};

use crate::outer::OuterPath;
use crate::path::{NodeOnPath, PathNumbers, after_child, empty_path};
use std::alloc::{AllocError, Global};
use std::marker::Model;
use xg_game::Kind;
use xg_tree::{Node, is_leaf};

/// The nodes that were entered and aren't left yet.
#[derive(Drop)]
pub(crate) struct WalkPath {
    // The innermost, if it is a leaf. Most nodes are leaves, which are left at once, and the others stay as they are.
    leaf: Option<NodeOnPath>,
    branch: NodeOnPath,
    outer: OuterPath,
}

impl Model for WalkPath {
    ghost use Rattle.xg_scale.specs.OnPath.{PathNodes, nodes_with_leaf};

    ghost Value = { PathNodes };

    ghost view = { λ p. nodes_with_leaf p.leaf p.branch p.outer };
}

impl WalkPath {
    /// No node was entered.
    pub(crate) fn new(alloc: Global) -> WalkPath
        ensures innermost { result.innermost ≡ empty_path }
        ensures outer { result.outer ≡ [] }
    {
        WalkPath {
            leaf: None,
            branch: empty_path(),
            outer: OuterPath::new(alloc),
        }
    }

    /// The node that the walk stands at.
    #[inline(always)]
    pub(crate) fn innermost(&self) -> &NodeOnPath
        ensures { result.now ≡ self.now.innermost }
    {
        match &self.leaf {
            Some(leaf) => leaf,
            None => &self.branch,
        }
    }

    /// Goes down to a child, the path to which has these numbers.
    #[inline(always)]
    pub(crate) fn enter(&mut self, node: Node, numbers: PathNumbers) -> Result<(), AllocError>
        ensures innermost { OnOk result (self.new.innermost ≡ entered_node node numbers) }
        ensures outer { OnOk result (self.new.outer ≡ self.old.innermost ∷ self.old.outer) }
    {
        if let Some(leaf) = self.leaf {
            self.outer.push(self.branch)?;
            self.branch = leaf;
            self.leaf = None;
        }
        let entered = before_children(node, numbers);
        if is_leaf(node) {
            self.leaf = Some(entered);
            return Ok(());
        }
        self.outer.push(self.branch)?;
        self.branch = entered;
        Ok(())
    }

    /// Goes up to the node around, at its next action.
    #[inline(always)]
    pub(crate) fn leave(&mut self)
        requires { HasNodeAround self.old.outer }
        ensures { GoesBackTo self.old.outer self.new.innermost self.new.outer }
    {
        if self.leaf.is_some() {
            self.leaf = None;
            self.branch = after_child(self.branch);
            return;
        }
        let Some(around) = self.outer.pop() else {
            unreachable!()
        };
        self.branch = after_child(around);
    }
}

/// The node before its first child.
#[inline(always)]
fn before_children(node: Node, numbers: PathNumbers) -> NodeOnPath
    ensures { result ≡ entered_node node numbers }
{
    let chance_set = match node.kind {
        Kind::Chance => Some(node.set),
        _ => None,
    };
    NodeOnPath {
        chance_set,
        action: 1,
        numbers,
    }
}
