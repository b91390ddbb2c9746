//! The nodes around the one that a walk stands at.
ghost use Rattle.std.specs.Prelude.{◌≡◌, [], ◌∷◌, IfSome, IsNone, IsTrue, OnOk};

use crate::parts::is_same;
use crate::path::{NodeOnPath, PathNumbers, empty_path};
use std::alloc::{AllocError, Global};
use std::marker::Model;
use xg_tree::Ancestors;

/// A node on the path without its numbers, and whether these differ from those of the node around it.
#[derive(Clone, Copy)]
pub(crate) struct StepOnPath {
    chance_set: Option<u32>,
    action: u32,
    is_new: bool,
}

/// The nodes on the path that are around another one. Those in a row with the same numbers have them once, since most
/// games pay at leaves alone and a path may be as long as its tree.
#[derive(Drop)]
pub(crate) struct OuterPath {
    steps: Ancestors<StepOnPath>,
    // Those of the last node, and behind them each further ones that differ.
    numbers: PathNumbers,
    further: Ancestors<PathNumbers>,
}

impl Model for OuterPath {
    ghost use Rattle.std.specs.Prelude.{List};
    ghost use Rattle.xg_scale.specs.declared.path.NodeOnPath.{NodeOnPath};
    ghost use Rattle.xg_scale.specs.Outer.{nodes_around};

    ghost Value = { List NodeOnPath };

    ghost view = { λ p. nodes_around p.steps p.numbers p.further };
}

impl OuterPath {
    /// No node.
    pub(crate) fn new(alloc: Global) -> OuterPath
        ensures { result ≡ [] }
    {
        OuterPath {
            steps: Ancestors::new(alloc),
            numbers: empty_path().numbers,
            further: Ancestors::new(alloc),
        }
    }

    /// Goes down to a child of a node.
    #[inline(always)]
    pub(crate) fn push(&mut self, node: NodeOnPath) -> Result<(), AllocError>
        ensures { OnOk result (self.new ≡ node ∷ self.old) }
    {
        let is_new = !are_same(node.numbers, self.numbers);
        if is_new {
            self.further.push(self.numbers)?;
            self.numbers = node.numbers;
        }
        self.steps.push(StepOnPath {
            chance_set: node.chance_set,
            action: node.action,
            is_new,
        })
    }

    /// Goes up to the node around, and answers it.
    #[inline(always)]
    pub(crate) fn pop(&mut self) -> Option<NodeOnPath>
        ensures some { IfSome result (λ around. self.old ≡ around ∷ self.new) }
        ensures none { IsNone result → self.old ≡ [] }
    {
        let step = self.steps.pop()?;
        let numbers = self.numbers;
        if step.is_new
            && let Some(next) = self.further.pop()
        {
            self.numbers = next;
        }
        Some(NodeOnPath {
            chance_set: step.chance_set,
            action: step.action,
            numbers,
        })
    }
}

#[inline(always)]
fn are_same(a: PathNumbers, b: PathNumbers) -> bool
    ensures { IsTrue result → a ≡ b }
{
    is_same(a.reach, b.reach) && is_same(a.one, b.one) && is_same(a.two, b.two)
}
