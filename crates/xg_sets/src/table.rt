//! A player's sets so far.
ghost use Rattle.std.specs.Prelude.{◌≡◌, ◌+◌, ◌-◌, ◌^◌, ◌<◌, ◌≤◌, [], ◌∷◌, ◌++◌, length, IfOk, OnOk, Some, slice_get};
ghost use Rattle.xg_sets.specs.Table.{BeginsSet, LastIsThere, Notes};

use crate::building::RecallFault;
use crate::next_nodes::NextNodes;
use def_tree::Node;
use std::alloc::{AllocError, Global};
use std::marker::Model;

/// A set: the first sequence that ends at it, the one before it, how many actions it has, its first node, and its last
/// one so far.
#[derive(Clone, Copy)]
pub(crate) struct FoundSet {
    pub(crate) first: u32,
    pub(crate) before: u32,
    pub(crate) actions: u32,
    pub(crate) node: u32,
    pub(crate) last: u32,
}

/// A player's sets so far, and the player's sequence at each node so far.
#[derive(Drop)]
pub(crate) struct FoundSets {
    rows: Vec<FoundSet>,
    at_nodes: Vec<u32>,
    // the first sequence of the next set
    next: u32,
}

impl Model for FoundSets {
    ghost use Rattle.xg_sets.specs.Table.{SetsUpTo};

    ghost Value = { SetsUpTo };

    ghost view = { λ t. record { rows = t.rows.items; at_nodes = t.at_nodes.items; next = t.next } };
}

impl FoundSets {
    /// No set and no node yet, and room for so many nodes.
    pub(crate) fn with_capacity(alloc: Global, nodes: u32) -> Result<FoundSets, AllocError>
        ensures { IfOk result (λ table. table ≡ record { rows = []; at_nodes = []; next = 1 }) }
    {
        Ok(FoundSets {
            rows: Vec::new(alloc),
            at_nodes: Vec::with_capacity(alloc, nodes as usize)?,
            next: 1,
        })
    }

    /// Puts the player's sequence at the next node.
    pub(crate) fn put(&mut self, sequence: u32) -> Result<(), AllocError>
        ensures { OnOk result (self.new ≡ record self.old { at_nodes = self.old.at_nodes ++ sequence ∷ [] }) }
    {
        let Ok(()) = self.at_nodes.push(sequence) else {
            return Err(AllocError);
        };
        Ok(())
    }

    /// Notes node `k`, where the player moves after the sequence `before`, and answers the first sequence of its set.
    /// The set's node before it gets it as its next one.
    pub(crate) fn note(
        &mut self,
        k: u32,
        node: Node,
        before: u32,
        next_nodes: &mut NextNodes,
    ) -> Result<u32, RecallFault>
        requires from_one { 1 ≤ k }
        requires counts { 1 ≤ node.set }
        requires room { self.old.next + node.children < 2 ^ 32 }
        requires last { LastIsThere (slice_get self.old.rows (node.set - 1)) next_nodes.old }
        ensures { Notes self.old k node before self.new result next_nodes.old next_nodes.new }
    {
        let place = node.set as usize - 1;
        let Some(row) = self.rows.get(place) else {
            return self.begin(k, node, before);
        };
        if row.before != before {
            return Err(RecallFault::NotRecall {
                node: k,
                earlier: row.node,
            });
        }
        let FoundSet { first, last, .. } = *row;
        next_nodes.link(last, k);
        self.rows[place].last = k;
        Ok(first)
    }

    fn begin(&mut self, k: u32, node: Node, before: u32) -> Result<u32, RecallFault>
        requires { self.old.next + node.children < 2 ^ 32 }
        ensures { BeginsSet self.old k node before self.new result }
    {
        let first = self.next;
        let Ok(()) = self.rows.reserve(1) else {
            return Err(RecallFault::NoMemory);
        };
        self.rows.push_reserved(FoundSet {
            first,
            before,
            actions: node.children,
            node: k,
            last: k,
        });
        self.next += node.children;
        Ok(first)
    }

    pub(crate) fn count(&self) -> u32
        requires { length self.now.rows < 2 ^ 32 }
        ensures { result ≡ length self.now.rows }
    {
        self.rows.len() as u32
    }

    pub(crate) fn row(&self, set: u32) -> FoundSet
        requires from_one { 1 ≤ set }
        requires there { set ≤ length self.now.rows }
        ensures { slice_get self.now.rows (set - 1) ≡ Some result }
    {
        self.rows[set as usize - 1]
    }

    pub(crate) fn sequence_at(&self, k: u32) -> u32
        requires from_one { 1 ≤ k }
        requires there { k ≤ length self.now.at_nodes }
        ensures { slice_get self.now.at_nodes (k - 1) ≡ Some result }
    {
        self.at_nodes[k as usize - 1]
    }
}
