//! A stripe of the rows, with the history of its jobs.
ghost use Rattle.std.specs.Prelude.{◌≡◌, ◌<◌, ◌≤◌, ◌*◌, ◌+◌, ◌^◌, ◌↔◌, [], ◌∷◌, length, IfOk, IsTrue, Contains};
ghost use Rattle.std.specs.Prelude.{ℕ, pos, unsigned_abs, slice_index_or};
ghost use Rattle.def_sums.specs.Limits.{most_row};
ghost use Rattle.def_history.specs.History.{IsLegal, place_of, replay, stripe_of};
ghost use Rattle.def_history.specs.Packets.{IsPacketOf, place_count};
ghost use Rattle.xg_rowcore.specs.Stripes.{AreTotals, HasGrown, with_job};

use crate::amounts::Amounts;
use crate::name::RowName;
use crate::packet::Packet;
use crate::places::place_of;
use std::alloc::{AllocError, Global};
use std::marker::{Model, PhantomData};

/// The rows of one stripe: the jobs that were added, in their order, and the total at each row.
///
/// Row `r` is at place `r / stripes` of stripe `r % stripes`. Each total is what the history's jobs add up to at its
/// row.
#[derive(Drop)]
pub struct Stripe<N: RowName> {
    index: u32,
    stripes: u32,
    order: Vec<u32>,
    totals: Amounts,
    name: PhantomData<N>,
}

impl<N: RowName> Model for Stripe<N> {
    ghost use Rattle.std.specs.Prelude.{◌≤◌, ◌<◌, ◌^◌, vec_capacity};
    ghost use Rattle.def_history.specs.History.{IsLegal};
    ghost use Rattle.xg_rowcore.specs.Stripes.{AreTotals, StripeHistory};

    ghost Value = { StripeHistory };

    ghost view = { λ s. record { index = s.index; stripes = s.stripes; order = s.order.items } };

    ghost invariant = { λ s. (s.index < s.stripes) × IsLegal N.jobs s.order.items
        × AreTotals N.rows N.amount s.index s.stripes s.order.items s.totals.list
        × (N.jobs ≤ vec_capacity s.order) × (N.jobs < 2 ^ 32) × (N.rows < 2 ^ 32) };
}

impl<N: RowName> Stripe<N> {
    /// A stripe with no job and all totals 0: the one of this number of so many.
    pub fn new(
        alloc: Global,
        index: u32,
        stripes: u32,
        rows: u32,
        jobs: u32,
    ) -> Result<Stripe<N>, AllocError>
        requires index { index < stripes }
        requires rows { rows ≡ N.rows }
        requires jobs { jobs ≡ N.jobs }
        ensures { IfOk result (λ stripe. stripe ≡ record { index = index; stripes = stripes; order = [] }) }
    {
        let order = Vec::with_capacity(alloc, jobs as usize)?;
        let count = (rows as usize + stripes as usize - 1 - index as usize) / stripes as usize;
        let mut totals = Amounts::new(alloc, count)?;
        totals.reset(count);
        Ok(Stripe {
            index,
            stripes,
            order,
            totals,
            name: PhantomData,
        })
    }

    /// The stripe's number.
    pub fn index(&self) -> u32
        ensures { result ≡ self.now.index }
    {
        self.index
    }

    /// How many stripes there are.
    pub fn stripes(&self) -> u32
        ensures { result ≡ self.now.stripes }
    {
        self.stripes
    }

    /// Whether the job was added.
    pub fn has(&self, job: u32) -> bool
        ensures { IsTrue result ↔ Contains self.now.order job }
    {
        self.order.contains(&job)
    }

    /// Adds the rows of a job's packet that lie in this stripe.
    pub fn add(&mut self, packet: &Packet)
        requires job { packet.now.job < N.jobs }
        requires packet { IsPacketOf N.amount N.rows packet.now.job packet.now.entries.list }
        requires new { Contains self.old.order packet.now.job → ⊥ }
        ensures { self.new ≡ with_job self.old packet.now.job }
    {
        add_rows(
            &mut self.totals,
            self.index,
            self.stripes,
            packet,
            &self.name,
        );
        self.order.push_reserved(packet.job);
    }

    /// How many jobs were added.
    pub fn jobs_added(&self) -> u32
        ensures { result ≡ length self.now.order }
    {
        self.order.len() as u32
    }

    /// The total at a place: what the jobs that were added bring to its row.
    pub fn total(&self, place: u32) -> i128
        requires { place < place_count self.now.stripes N.rows self.now.index }
        ensures replayed { result ≡ replay N.amount self.now.order (place * self.now.stripes + self.now.index) }
        ensures small { unsigned_abs result ≤ most_row }
    {
        self.totals.get(place as usize)
    }

    /// What the type keeps of its history, and that the numbers of jobs and rows have 32 bits.
    pub fn history_is_legal(&self)
        ensures legal { IsLegal N.jobs self.now.order }
        ensures index { self.now.index < self.now.stripes }
        ensures jobs { N.jobs < 2 ^ 32 }
        ensures rows { N.rows < 2 ^ 32 }
    {
        let _index = self.index;
    }
}

// Adds the packet's rows that lie in the stripe.
fn add_rows<N: RowName>(
    totals: &mut Amounts,
    index: u32,
    stripes: u32,
    packet: &Packet,
    _name: &PhantomData<N>,
)
    requires index { index < stripes }
    requires length { length totals.old.list ≡ place_count stripes N.rows index }
    requires job { packet.now.job < N.jobs }
    requires packet { IsPacketOf N.amount N.rows packet.now.job packet.now.entries.list }
    requires small { (place : ℕ) → place < length totals.old.list
        → unsigned_abs (slice_index_or totals.old.list place (pos 0)) ≤ most_row }
    ensures { HasGrown packet.now.entries.list index stripes totals.old.list totals.new.list }
{
    let mut i = packet.first_of(stripes, index);
    while i < packet.len() {
        let (row, amount) = packet.entry(i);
        add_entry(totals, stripes, row, amount);
        i = packet.next_of(stripes, i);
    }
}

// Adds the amount of one row of the stripe.
fn add_entry(totals: &mut Amounts, stripes: u32, row: u32, amount: i128)
    requires stripes { 0 < stripes }
    requires there { place_of stripes row < length totals.old.list }
    requires small { unsigned_abs (slice_index_or totals.old.list (place_of stripes row) (pos 0)) + unsigned_abs amount
        < 2 ^ 127 }
    ensures { HasGrown (record { row = row; amount = amount } ∷ []) (stripe_of stripes row) stripes totals.old.list
        totals.new.list }
{
    totals.add(place_of(row, stripes) as usize, amount);
}
