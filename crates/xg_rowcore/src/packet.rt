//! The packet of a job.
ghost use Rattle.std.specs.Prelude.{◌≡◌, ◌<◌, ◌≤◌, ◌+◌, ◌^◌, ◌++◌, ◌+ℤ◌, [], ◌∷◌, length, unsigned_abs, IfOk};
ghost use Rattle.def_sums.specs.Limits.{most_stripes};
ghost use Rattle.def_history.specs.History.{stripe_of};
ghost use Rattle.xg_rowcore.specs.Chains.{IsNextOf, rows_of_entries, usual_stripes};
ghost use Rattle.xg_rowcore.specs.Packets.{IsAboveLast, entry_in, with_added, with_amount, zeros_at};

use crate::entries::RowEntries;
use crate::linked::LinkedRows;
use std::alloc::{AllocError, Global};

/// What one job adds: rows in rising order, each with an amount.
///
/// A packet is made once, with room for the largest job, and then filled for one job after the other.
#[derive(Drop)]
pub struct Packet {
    /// The job that the rows are of.
    pub job: u32,
    entries: RowEntries,
}

impl Packet {
    /// An empty packet with room for so many rows.
    pub fn new(alloc: Global, room: usize) -> Result<Packet, AllocError>
        ensures empty { IfOk result (λ packet. packet.entries.list ≡ []) }
        ensures room { IfOk result (λ packet. packet.entries.room ≡ room) }
        ensures chained { IfOk result (λ packet. packet.entries.chained ≡ 0) }
        ensures job { IfOk result (λ packet. packet.job ≡ 0) }
    {
        let entries = RowEntries::new(alloc, room)?;
        Ok(Packet { job: 0, entries })
    }

    /// How many rows it has room for.
    pub fn room(&self) -> usize
        ensures { result ≡ self.now.entries.room }
    {
        self.entries.room()
    }

    /// How many rows it has.
    pub fn len(&self) -> usize
        ensures { result ≡ length self.now.entries.list }
    {
        self.entries.len()
    }

    /// A row and its amount, by their place from 0 on.
    pub fn entry(&self, i: usize) -> (u32, i128)
        requires { i < length self.now.entries.list }
        ensures row { result.0 ≡ (entry_in self.now.entries.list i).row }
        ensures amount { result.1 ≡ (entry_in self.now.entries.list i).amount }
    {
        self.entries.entry(i)
    }

    /// Empties the packet, for another job.
    pub fn start(&mut self, job: u32)
        ensures job { self.new.job ≡ job }
        ensures entries { self.new.entries ≡ record { list = []; room = self.old.entries.room; chained = 0 } }
    {
        self.job = job;
        self.entries.clear();
    }

    /// Takes the rows of another job in the place of its own, each with the amount 0. Their chains come with them: for
    /// the usual number of stripes they needn't be grouped.
    pub fn start_with(&mut self, job: u32, rows: &LinkedRows)
        requires room { length rows.now ≤ self.old.entries.room }
        ensures job { self.new.job ≡ job }
        ensures entries { self.new.entries ≡ record {
          list = zeros_at rows.now;
          room = self.old.entries.room;
          chained = usual_stripes;
        } }
    {
        self.job = job;
        self.entries.take_rows(rows);
    }

    /// Puts another amount at a place, from 0 on.
    pub fn put(&mut self, i: usize, amount: i128)
        requires there { i < length self.old.entries.list }
        ensures job { self.new.job ≡ self.old.job }
        ensures entries { self.new.entries ≡ record {
          list = with_amount self.old.entries.list i amount;
          room = self.old.entries.room;
          chained = self.old.entries.chained;
        } }
    {
        self.entries.put(i, amount);
    }

    /// Puts a row last, with its amount.
    pub fn push(&mut self, row: u32, amount: i128)
        requires room { length self.old.entries.list < self.old.entries.room }
        requires above { IsAboveLast self.old.entries.list row }
        ensures job { self.new.job ≡ self.old.job }
        ensures entries { self.new.entries ≡ record {
          list = self.old.entries.list ++ record { row = row; amount = amount } ∷ [];
          room = self.old.entries.room;
          chained = 0;
        } }
    {
        self.entries.push(row, amount);
    }

    /// Adds to the amount at a place, from 0 on.
    pub fn add(&mut self, i: usize, more: i128)
        requires there { i < length self.old.entries.list }
        requires fits { unsigned_abs ((entry_in self.old.entries.list i).amount +ℤ more) < 2 ^ 127 }
        ensures job { self.new.job ≡ self.old.job }
        ensures entries { self.new.entries ≡ record {
          list = with_added self.old.entries.list i more;
          room = self.old.entries.room;
          chained = self.old.entries.chained;
        } }
    {
        self.entries.add(i, more);
    }

    /// Groups the rows by their stripes, so that [`Stripe::add`](crate::Stripe::add) finds its own at once. The packet
    /// stays what it is, and the next row that is pushed ends the grouping.
    pub fn group(&mut self, stripes: u32)
        requires some { 1 ≤ stripes }
        requires few { stripes ≤ most_stripes }
        ensures job { self.new.job ≡ self.old.job }
        ensures list { self.new.entries.list ≡ self.old.entries.list }
        ensures room { self.new.entries.room ≡ self.old.entries.room }
        ensures chained { length self.old.entries.list < 2 ^ 32 → self.new.entries.chained ≡ stripes }
    {
        self.entries.group(stripes);
    }

    /// The first place whose row lies in the stripe.
    pub(crate) fn first_of(&self, stripes: u32, stripe: u32) -> usize
        requires { stripe < stripes }
        ensures { IsNextOf stripes stripe (rows_of_entries self.now.entries.list) 0 result }
    {
        self.entries.first_of(stripes, stripe)
    }

    /// The next place after one whose row lies in the same stripe.
    pub(crate) fn next_of(&self, stripes: u32, i: usize) -> usize
        requires stripes { 0 < stripes }
        requires there { i < length self.now.entries.list }
        ensures { let stripe = stripe_of stripes (entry_in self.now.entries.list i).row in
            IsNextOf stripes stripe (rows_of_entries self.now.entries.list) (i + 1) result }
    {
        self.entries.next_of(stripes, i)
    }
}
