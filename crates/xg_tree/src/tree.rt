//! The tree of a game.
ghost use Rattle.std.specs.Prelude.{◌≡◌, ◌-◌, ◌≤◌, length, slice_get};
ghost use Rattle.def_tree.specs.Events.{Accepts, Leads, events};
ghost use Rattle.def_tree.specs.Links.{first_child_of, next_sibling_of, parent_of};
ghost use Rattle.def_tree.specs.Rules.{IsGameTree};
ghost use Rattle.def_tree.specs.Tree.{forest_of, is_leaf_node, leaf_count, node_count, prefix};
ghost use Rattle.xg_tree.specs.Kept.{IsKeptTree};
ghost use Rattle.xg_tree.specs.Linked.{ComeAfterParents};
ghost use Rattle.xg_tree.specs.Visits.{leaving, visit_events};

use crate::links::{Links, left_after, links_at, numbered};
use crate::visitor::Visitor;
use def_tree::{Kind, Node};
use std::marker::Model;

/// The whole tree of a game.
///
/// Nodes and leaves are numbered from 1 in prefix order.
#[derive(Drop)]
pub struct Tree {
    nodes: Vec<Node>,
    links: Vec<Links>,
    leaves: u32,
}

impl Model for Tree {
    ghost use Rattle.def_tree.specs.Tree.{Forest, forest_of};
    ghost use Rattle.def_tree.specs.Code.{forest_code};

    ghost Value = { Forest };

    ghost coded = { forest_code };

    ghost use Rattle.xg_tree.specs.Kept.{IsKeptTree};

    ghost view = { λ t. forest_of t.nodes.items };

    ghost invariant = { λ t. IsKeptTree t.nodes.items t.links.items t.leaves };
}

impl Tree {
    // The tree of these nodes with these links, among which are so many leaves.
    pub(crate) fn of(nodes: Vec<Node>, links: Vec<Links>, leaves: u32) -> Tree
        requires { IsKeptTree nodes.items links.items leaves }
        ensures { result ≡ forest_of nodes.items }
    {
        Tree {
            nodes,
            links,
            leaves,
        }
    }

    /// The number of nodes.
    pub fn len(&self) -> u32
        ensures count { result ≡ node_count self.now }

        // What is true of every tree.
        ensures rules { IsGameTree self.now }
    {
        self.nodes.len() as u32
    }

    /// Does nothing: its clause is what is true of every tree.
    pub fn facts(&self)
        ensures rules { IsGameTree self.now }
    {
        let _count = self.len();
    }

    /// The number of leaves.
    pub fn leaves(&self) -> u32
        ensures { result ≡ leaf_count (prefix self.now) }
    {
        self.leaves
    }

    /// Node `k`.
    pub fn node(&self, k: u32) -> Node
        requires from_one { 1 ≤ k }
        requires there { k ≤ node_count self.now }
        ensures { slice_get (prefix self.now) (k - 1) ≡ Some result }
    {
        self.nodes[k as usize - 1]
    }

    /// The parent of node `k`. The root has none.
    pub fn parent(&self, k: u32) -> Option<u32>
        requires from_one { 1 ≤ k }
        requires there { k ≤ node_count self.now }
        ensures { result ≡ parent_of self.now k }
    {
        numbered(links_at(&self.links, k).parent)
    }

    /// The first child of node `k`. A leaf has none.
    pub fn first_child(&self, k: u32) -> Option<u32>
        requires from_one { 1 ≤ k }
        requires there { k ≤ node_count self.now }
        ensures { result ≡ first_child_of self.now k }
    {
        numbered(links_at(&self.links, k).first_child)
    }

    /// The sibling that comes next after node `k`. The last child of a node has none, and neither has the root.
    pub fn next_sibling(&self, k: u32) -> Option<u32>
        requires from_one { 1 ≤ k }
        requires there { k ≤ node_count self.now }
        ensures { result ≡ next_sibling_of self.now k }
    {
        numbered(links_at(&self.links, k).next_sibling)
    }

    /// Goes through the tree depth first.
    pub fn walk<V: Visitor>(&self, visitor: &mut V)
        requires { Accepts V.may_enter V.enters V.may_leave V.leaves (events self.now) visitor.old }
        ensures { Leads V.may_enter V.enters V.may_leave V.leaves (events self.now) visitor.old visitor.new }
    {
        for (at, node) in self.nodes.iter().enumerate() {
            visit(&self.links, at as u32 + 1, *node, visitor);
        }
    }
}

/// Whether a node is a leaf.
pub fn is_leaf(node: Node) -> bool
    ensures { result ≡ is_leaf_node node }
{
    matches!(node.kind, Kind::Leaf)
}

// Enters node `k`. Where it has no child it is left, and with it each node above whose last child is left.
fn visit<V: Visitor>(links: &[Links], k: u32, node: Node, visitor: &mut V)
    requires from_one { 1 ≤ k }
    requires there { k ≤ length links.now }
    requires ordered { ComeAfterParents links.now }
    requires accepts { Accepts V.may_enter V.enters V.may_leave V.leaves (visit_events links.now k node) visitor.old }
    ensures { Leads V.may_enter V.enters V.may_leave V.leaves (visit_events links.now k node) visitor.old visitor.new }
{
    visitor.enter(k, node);
    if links_at(links, k).first_child == 0 {
        leave_from(links, k, visitor);
    }
}

// Leaves node `k`, and after a last child its parent.
fn leave_from<V: Visitor>(links: &[Links], k: u32, visitor: &mut V)
    requires there { k ≤ length links.now }
    requires ordered { ComeAfterParents links.now }
    requires accepts { Accepts V.may_enter V.enters V.may_leave V.leaves (leaving links.now k) visitor.old }
    ensures { Leads V.may_enter V.enters V.may_leave V.leaves (leaving links.now k) visitor.old visitor.new }
{
    let mut left = k;
    while left > 0 {
        visitor.leave(left);
        left = left_after(links, left);
    }
}
