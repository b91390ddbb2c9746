//! The entries of a packet.
ghost use Rattle.std.specs.Prelude.{◌≡◌, ◌<◌, ◌≤◌, ◌+◌, ◌^◌, ◌++◌, [], ◌∷◌, length, IfOk, vec_capacity};
ghost use Rattle.std.specs.Prelude.{◌+ℤ◌, unsigned_abs};
ghost use Rattle.def_sums.specs.Limits.{most_stripes};
ghost use Rattle.def_history.specs.History.{stripe_of};
ghost use Rattle.xg_rowcore.specs.Chains.{IsNextOf, rows_of_entries, usual_stripes};
ghost use Rattle.xg_rowcore.specs.Packets.{IsAboveLast, entry_in, with_added, with_amount, zeros_at};

use crate::amounts::{Amounts, plus};
use crate::chains::{Chains, seek};
use crate::linked::LinkedRows;
use crate::places::stripe_of;
use std::alloc::{AllocError, Global};
use std::marker::Model;

/// The entries of a packet, in rising order of their rows, the room for them, and chains through those of each stripe
/// once they are grouped.
#[derive(Drop)]
pub(crate) struct RowEntries {
    rows: Vec<u32>,
    amounts: Amounts,
    chains: Chains,
}

impl Model for RowEntries {
    ghost use Rattle.std.specs.Prelude.{◌≡◌, ◌≤◌, length, vec_capacity};
    ghost use Rattle.def_history.specs.Packets.{AreRising};
    ghost use Rattle.xg_rowcore.specs.Chains.{KeepsChains};
    ghost use Rattle.xg_rowcore.specs.Packets.{Listed, entries_of_rows};

    ghost Value = { Listed };

    ghost view = { λ e. record {
      list = entries_of_rows e.rows.items e.amounts.list;
      room = e.amounts.room;
      chained = e.chains.stripes;
    } };

    ghost invariant = { λ e. (length e.rows.items ≡ length e.amounts.list)
        × AreRising (entries_of_rows e.rows.items e.amounts.list)
        × (e.amounts.room ≤ vec_capacity e.rows) × (length e.rows.items ≤ e.amounts.room)
        × KeepsChains e.rows.items e.amounts.room e.chains.stripes e.chains.first.items e.chains.next.items };
}

impl RowEntries {
    pub(crate) fn new(alloc: Global, room: usize) -> Result<RowEntries, AllocError>
        ensures { IfOk result (λ entries. entries ≡ record { list = []; room = room; chained = 0 }) }
    {
        let rows = Vec::with_capacity(alloc, room)?;
        let amounts = Amounts::new(alloc, room)?;
        let chains = Chains::new(alloc, room)?;
        Ok(RowEntries {
            rows,
            amounts,
            chains,
        })
    }

    pub(crate) fn room(&self) -> usize
        ensures { result ≡ self.now.room }
    {
        self.amounts.room()
    }

    pub(crate) fn len(&self) -> usize
        ensures { result ≡ length self.now.list }
    {
        self.rows.len()
    }

    pub(crate) fn entry(&self, i: usize) -> (u32, i128)
        requires { i < length self.now.list }
        ensures row { result.0 ≡ (entry_in self.now.list i).row }
        ensures amount { result.1 ≡ (entry_in self.now.list i).amount }
    {
        (self.rows[i], self.amounts.get(i))
    }

    pub(crate) fn clear(&mut self)
        ensures { self.new ≡ record { list = []; room = self.old.room; chained = 0 } }
    {
        self.rows.clear();
        self.amounts.reset(0);
        self.chains.stripes = 0;
    }

    pub(crate) fn push(&mut self, row: u32, amount: i128)
        requires room { length self.old.list < self.old.room }
        requires above { IsAboveLast self.old.list row }
        ensures { self.new ≡ record {
          list = self.old.list ++ record { row = row; amount = amount } ∷ [];
          room = self.old.room;
          chained = 0;
        } }
    {
        self.rows.push_reserved(row);
        self.amounts.push(amount);
        self.chains.stripes = 0;
    }

    pub(crate) fn add(&mut self, i: usize, more: i128)
        requires there { i < length self.old.list }
        requires fits { unsigned_abs ((entry_in self.old.list i).amount +ℤ more) < 2 ^ 127 }
        ensures { self.new ≡ record {
          list = with_added self.old.list i more;
          room = self.old.room;
          chained = self.old.chained;
        } }
    {
        let (_row, amount) = self.entry(i);
        self.put(i, plus(amount, more));
    }

    /// Takes these rows with their chains, each with the amount 0.
    pub(crate) fn take_rows(&mut self, rows: &LinkedRows)
        requires { length rows.now ≤ self.old.room }
        ensures { self.new ≡ record { list = zeros_at rows.now; room = self.old.room; chained = usual_stripes } }
    {
        rows.copy_to(&mut self.rows, &mut self.chains);
        self.amounts.reset(self.rows.len());
    }

    pub(crate) fn put(&mut self, i: usize, amount: i128)
        requires { i < length self.old.list }
        ensures { self.new ≡ record {
          list = with_amount self.old.list i amount;
          room = self.old.room;
          chained = self.old.chained;
        } }
    {
        self.amounts.put(i, amount);
    }

    pub(crate) fn group(&mut self, stripes: u32)
        requires { (1 ≤ stripes) × (stripes ≤ most_stripes) }
        ensures list { self.new.list ≡ self.old.list }
        ensures room { self.new.room ≡ self.old.room }
        ensures chained { length self.old.list < 2 ^ 32 → self.new.chained ≡ stripes }
    {
        if self.chains.stripes != stripes && self.rows.len() <= u32::MAX as usize {
            self.chains.link(&self.rows, stripes);
        }
    }

    /// The first place whose row lies in the stripe.
    pub(crate) fn first_of(&self, stripes: u32, stripe: u32) -> usize
        requires { stripe < stripes }
        ensures { IsNextOf stripes stripe (rows_of_entries self.now.list) 0 result }
    {
        if self.chains.stripes == stripes {
            self.chains.first[stripe as usize] as usize
        } else {
            seek(&self.rows, stripes, stripe, 0)
        }
    }

    /// The next place after one whose row lies in the same stripe.
    pub(crate) fn next_of(&self, stripes: u32, i: usize) -> usize
        requires stripes { 0 < stripes }
        requires there { i < length self.now.list }
        ensures { let stripe = stripe_of stripes (entry_in self.now.list i).row in
            IsNextOf stripes stripe (rows_of_entries self.now.list) (i + 1) result }
    {
        if self.chains.stripes == stripes {
            self.chains.next[i] as usize
        } else {
            seek(&self.rows, stripes, stripe_of(self.rows[i], stripes), i + 1)
        }
    }
}
