//! The rows of a job with chains through them.
ghost use Rattle.std.specs.Prelude.{◌≡◌, ◌<◌, ◌≤◌, ◌^◌, length, IfOk, vec_capacity};
ghost use Rattle.std.specs.List.Sorted.{IsStrictlyIncreasing};
ghost use Rattle.def_sums.specs.Limits.{most_stripes};
ghost use Rattle.def_history.specs.Packets.{AreRising};
ghost use Rattle.xg_rowcore.specs.Chains.{KeepsChains, usual_stripes};
ghost use Rattle.xg_rowcore.specs.Packets.{zeros_at};

use crate::chains::Chains;
use crate::places::USUAL_STRIPES;
use std::alloc::{AllocError, Global};
use std::marker::Model;

/// Rows in rising order, with chains through those of each stripe where the usual number of stripes is taken.
///
/// They are made once for a job, and packets of the job take them again and again.
#[derive(Drop)]
pub struct LinkedRows {
    rows: Vec<u32>,
    chains: Chains,
}

impl Model for LinkedRows {
    ghost use Rattle.std.specs.Prelude.{◌≡◌, ℕ, List, length};
    ghost use Rattle.def_history.specs.Packets.{AreRising};
    ghost use Rattle.xg_rowcore.specs.Chains.{KeepsChains, usual_stripes};
    ghost use Rattle.xg_rowcore.specs.Packets.{zeros_at};

    ghost Value = { List ℕ };

    ghost view = { λ l. l.rows.items };

    ghost invariant = { λ l. AreRising (zeros_at l.rows.items)
        × KeepsChains l.rows.items (length l.rows.items) l.chains.stripes l.chains.first.items l.chains.next.items
        × (l.chains.stripes ≡ usual_stripes) };
}

impl LinkedRows {
    /// Takes the rows, which rise, and makes their chains for 16 stripes, the usual number.
    pub fn new(alloc: Global, rows: Vec<u32>) -> Result<LinkedRows, AllocError>
        requires rising { IsStrictlyIncreasing rows.items }
        requires few { length rows.items < 2 ^ 32 }
        ensures { IfOk result (λ linked. linked ≡ rows.items) }
    {
        let mut chains = Chains::new(alloc, rows.len())?;
        chains.link(&rows, USUAL_STRIPES);
        Ok(LinkedRows { rows, chains })
    }

    /// The rows.
    pub fn rows(&self) -> &[u32]
        ensures { result.now ≡ self.now }
    {
        &self.rows
    }

    /// Puts the rows and their chains in the place of others. Takes no memory.
    pub(crate) fn copy_to(&self, rows: &mut Vec<u32>, chains: &mut Chains)
        requires room { length self.now ≤ vec_capacity rows.old }
        requires first { length chains.old.first.items ≡ most_stripes }
        requires next { length self.now ≤ length chains.old.next.items }
        ensures rows { rows.new.items ≡ self.now }
        ensures capacity { vec_capacity rows.old ≤ vec_capacity rows.new }
        ensures rising { AreRising (zeros_at self.now) }
        ensures chains { KeepsChains self.now (length chains.old.next.items) chains.new.stripes chains.new.first.items
            chains.new.next.items }
        ensures stripes { chains.new.stripes ≡ usual_stripes }
    {
        copy_rows(&self.rows, rows);
        chains.copy(&self.chains);
    }
}

fn copy_rows(from: &[u32], into: &mut Vec<u32>)
    requires { length from.now ≤ vec_capacity into.old }
    ensures items { into.new.items ≡ from.now }
    ensures capacity { vec_capacity into.old ≤ vec_capacity into.new }
{
    into.clear();
    let _fits = into.extend_from_slice(from);
}
