//! The building of a tree, node by node.
ghost use Rattle.std.specs.Prelude.{◌≡◌, ◌≢◌, ◌↔◌, ◌+◌, ◌<◌, ◌≤◌, [], ◌∷◌, ◌++◌, length, IsTrue, OnOk, OnErr, IsErrOf};
ghost use Rattle.def_tree.specs.Rules.{Fits, IsGameTree, KeepRules, most_nodes};
ghost use Rattle.def_tree.specs.Tree.{Begins, forest_of, leaf_count, prefix, wanted};

use crate::links::{Links, put_next};
use crate::sizes::Sizes;
use crate::tree::Tree;
use def_tree::{Kind, MOST_NODES, Node};
use std::alloc::{AllocError, Global};
use std::marker::Model;
use thiserror::Error;

/// Why a node was not taken.
#[derive(Debug, Drop, Error)]
pub enum PushFault {
    #[error("a tree has at most 1048576 nodes")]
    TooManyNodes,
    #[error("out of memory")]
    NoMemory,
}

impl From<AllocError> for PushFault {
    ghost use Rattle.xg_tree.specs.declared.builder.PushFault.TheVariants.{NoMemory};

    ghost from_gives = { λ _ fault. fault ≡ NoMemory };

    fn from(_error: AllocError) -> PushFault {
        PushFault::NoMemory
    }
}

/// The nodes of a tree so far, in prefix order.
#[derive(Drop)]
pub struct Builder {
    nodes: Vec<Node>,
    links: Vec<Links>,
    wanted: u32,
    leaves: u32,
    sizes: Sizes,
}

impl Model for Builder {
    ghost use Rattle.std.specs.Prelude.{List};
    ghost use Rattle.def_tree.specs.declared.Node.{Node};

    ghost Value = { List Node };

    ghost use Rattle.xg_tree.specs.Built.{IsBuilt};

    ghost view = { λ b. b.nodes.items };

    ghost invariant = { λ b. IsBuilt b.nodes.items b.links.items b.wanted b.leaves b.sizes };
}

impl Builder {
    /// No node yet, so that the root is wanted.
    pub fn new(alloc: Global) -> Builder
        ensures { result ≡ [] }
    {
        Builder {
            nodes: Vec::new(alloc),
            links: Vec::new(alloc),
            wanted: 1,
            leaves: 0,
            sizes: Sizes::new(alloc),
        }
    }

    /// Whether the nodes are a whole tree.
    pub fn is_complete(&self) -> bool
        ensures complete { IsTrue result ↔ (wanted 1 self.now ≡ 0) }

        // What is true of every builder.
        ensures begins { Begins 1 self.now }
        ensures rules { KeepRules self.now }
        ensures limit { length self.now ≤ most_nodes }
    {
        self.wanted == 0
    }

    /// Whether the node keeps the rules of sets and children after the nodes so far. Any outcome does.
    pub fn fits(&self, node: Node) -> bool
        ensures { IsTrue result ↔ Fits self.now node }
    {
        self.sizes.fits(node)
    }

    /// Puts the next node, in prefix order.
    #[inline(always)]
    pub fn push(&mut self, node: Node) -> Result<(), PushFault>
        requires incomplete { wanted 1 self.old ≢ 0 }
        requires fits { Fits self.old node }
        ensures ok { OnOk result (self.new ≡ self.old ++ node ∷ []) }
        ensures too_many { IsErrOf result PushFault.TooManyNodes ↔ (length self.old ≡ most_nodes) }
        ensures refused { OnErr result (self.new ≡ self.old) }
    {
        if self.nodes.len() >= MOST_NODES {
            return Err(PushFault::TooManyNodes);
        }
        self.nodes.reserve(1)?;
        self.links.reserve(1)?;
        self.sizes.note(node)?;
        self.nodes.push_reserved(node);
        put_next(&mut self.links, node.children);
        self.leaves += leaves_in(node);
        self.wanted = self.wanted - 1 + node.children;
        Ok(())
    }

    /// The tree of the nodes.
    pub fn finish(self) -> Tree
        requires { wanted 1 self ≡ 0 }
        ensures tree { result ≡ forest_of self }
        ensures nodes { prefix result ≡ self }
        ensures rules { IsGameTree result }
    {
        Tree::of(self.nodes, self.links, self.leaves)
    }
}

#[inline(always)]
fn leaves_in(node: Node) -> u32
    ensures { result ≡ leaf_count (node ∷ []) }
{
    match node.kind {
        Kind::Leaf => 1,
        _ => 0,
    }
}
