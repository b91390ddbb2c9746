//! For each node, the next node of its set.
ghost use Rattle.std.specs.Prelude.{◌≡◌, ◌-◌, ◌≤◌, [], ◌∷◌, ◌++◌, length, IfOk, None, OnOk, Some, slice_get, slice_set};

use std::alloc::{AllocError, Global};
use std::marker::Model;

/// For each node so far the number of the next node of its set, and 0 where none has come.
#[derive(Drop)]
pub(crate) struct NextNodes {
    numbers: Vec<u32>,
}

impl Model for NextNodes {
    ghost use Rattle.std.specs.Prelude.{List, Option, map, ℕ};
    ghost use Rattle.xg_sets.specs.NextNumber.{number_or_none};

    ghost Value = { List (Option ℕ) };

    ghost view = { λ n. map number_or_none n.numbers.items };
}

impl NextNodes {
    /// No node yet, and room for so many.
    pub(crate) fn with_capacity(alloc: Global, nodes: u32) -> Result<NextNodes, AllocError>
        ensures { IfOk result (λ next. next ≡ []) }
    {
        Ok(NextNodes {
            numbers: Vec::with_capacity(alloc, nodes as usize)?,
        })
    }

    /// Puts a node after which none of its set has come.
    pub(crate) fn put(&mut self) -> Result<(), AllocError>
        ensures { OnOk result (self.new ≡ self.old ++ None ∷ []) }
    {
        let Ok(()) = self.numbers.push(0) else {
            return Err(AllocError);
        };
        Ok(())
    }

    /// Puts node `next` after node `k`.
    pub(crate) fn link(&mut self, k: u32, next: u32)
        requires from_one { 1 ≤ k }
        requires there { k ≤ length self.old }
        requires some { 1 ≤ next }
        ensures { self.new ≡ slice_set self.old (k - 1) (Some next) }
    {
        self.numbers[k as usize - 1] = next;
    }

    /// The node after node `k`.
    pub(crate) fn after(&self, k: u32) -> Option<u32>
        requires from_one { 1 ≤ k }
        requires there { k ≤ length self.now }
        ensures { slice_get self.now (k - 1) ≡ Some result }
    {
        match self.numbers[k as usize - 1] {
            0 => None,
            next => Some(next),
        }
    }
}
