//! A stripe with its seat of rights.
ghost use Rattle.std.specs.Prelude.{◌≡◌, ◌<◌, ◌≤◌, ◌+◌, ◌-◌, ◌++◌, [], ◌∷◌, length, drop, IfOk};
ghost use Rattle.def_history.specs.Core.{GivesRight, times_right};
ghost use Rattle.def_history.specs.Packets.{IsPacketOf};
ghost use Rattle.xg_locked.specs.Rights.{rights_at, seen, stripes_of};
ghost use Rattle.xg_rowcore.specs.Stripes.{with_job};
ghost use Rattle.xg_locked.specs.Locked.{IsSeated, number_met, without};

use crate::rule::Cut;
use crate::steps::{RightsSeat, SharedRights, cut, meet};
use crate::view::View;
use std::alloc::{AllocError, Global};
use std::marker::Brand;
use xg_rowcore::{Packet, RowName, Stripe};

/// A stripe, and a seat with the rights that were given up for it: exactly those of the jobs that were added.
#[derive(Drop)]
pub struct SeatedStripe<N: RowName> {
    stripe: Stripe<N>,
    seat: RightsSeat,
    ghost kept: { IsSeated N.table seat.table_id seat.me stripe },
}

impl<N: RowName> SeatedStripe<N> {
    /// A stripe with no job, and a seat with one part of the other's.
    pub fn new(
        alloc: Global,
        table: &SharedRights,
        seat: &mut RightsSeat,
        index: u32,
        stripes: u32,
        rows: u32,
        jobs: u32,
    ) -> Result<SeatedStripe<N>, AllocError>
        requires table { (table.now.table_id ≡ N.table) × (0 < N.table.words) × (seat.old.table_id ≡ N.table) }
        requires index { index < stripes }
        requires stripes { stripes_of (number_met seat.old.me) ≡ stripes }
        requires name { (rows ≡ N.rows) × (jobs ≡ N.jobs) }
        requires seat { (2 ≤ seat.old.me.0.parts)
            × (seat.old.me ≡ (seen [] seat.old.me.0.tickets seat.old.me.0.parts (number_met seat.old.me), [])) }
        ensures index { IfOk result (λ s. s.stripe ≡ record { index = index; stripes = stripes; order = [] }) }
        ensures table { IfOk result (λ s. seat.new.table_id ≡ N.table) }
        ensures seat { let kept = seen [] seat.old.me.0.tickets (seat.old.me.0.parts - 1) (number_met seat.old.me) in
            IfOk result (λ s. seat.new.me ≡ (kept, [])) }
    {
        let stripe = Stripe::new(alloc, index, stripes, rows, jobs)?;
        let part = give_part::<Brand>(table, seat);
        Ok(SeatedStripe { stripe, seat: part })
    }

    /// The stripe's number.
    pub fn index(&self) -> u32
        ensures { result ≡ self.now.stripe.index }
    {
        self.stripe.index()
    }

    /// Adds a job's packet, and takes the right to do so from the seat, which keeps all others.
    pub fn add(&mut self, table: &SharedRights, seat: RightsSeat, packet: &Packet) -> RightsSeat
        requires table { (table.now.table_id ≡ N.table) × (0 < N.table.words) }
        requires seat { (seat.table_id ≡ N.table)
            × (seat.me ≡ (seen seat.me.0.rights seat.me.0.tickets 1 (number_met seat.me), [])) }
        requires job { packet.now.job < N.jobs }
        requires packet { IsPacketOf N.amount N.rows packet.now.job packet.now.entries.list }
        requires right { 1 ≤ times_right packet.now.job self.old.stripe.index seat.me.0.rights }
        ensures table { result.table_id ≡ N.table }
        ensures seat { result.me
            ≡ (
              seen (without packet.now.job self.old.stripe.index seat.me.0.rights) seat.me.0.tickets 1
                  (number_met seat.me),
              [],
            ) }
        ensures step { GivesRight self.old.stripe.index self.old.stripe.order seat.me.0.rights packet.now.job
            self.new.stripe.order result.me.0.rights }
        ensures history { self.new.stripe ≡ with_job self.old.stripe packet.now.job }
    {
        meet(table, &mut self.seat, seat);
        let seat = give_others::<N, Brand>(table, &mut self.seat, &self.stripe, packet.job);
        self.stripe.add(packet);
        seat
    }

    /// The stripe and the seat, at the end.
    pub fn into_parts(self) -> (Stripe<N>, RightsSeat)
        ensures stripe { result.0 ≡ self.stripe }
        ensures kept { IsSeated N.table result.1.table_id result.1.me result.0 }
    {
        let SeatedStripe { stripe, seat } = self;
        (stripe, seat)
    }
}

// Hands out one part.
fn give_part<C: Cut>(table: &SharedRights, seat: &mut RightsSeat) -> RightsSeat
    requires table { (seat.old.table_id ≡ table.now.table_id) × (0 < table.now.table_id.words) }
    requires rich { (2 ≤ seat.old.me.0.parts) × (seat.old.me.0.rights ≡ []) }
    requires kept { C.kept ≡ seen [] seat.old.me.0.tickets (seat.old.me.0.parts - 1) (number_met seat.old.me) }
    requires given { C.given ≡ seen [] 0 1 (number_met seat.old.me) }
    ensures kept { (seat.new.table_id ≡ seat.old.table_id) × (seat.new.me ≡ (C.kept, seat.old.me.1)) }
    ensures given { (result.table_id ≡ seat.old.table_id) × (result.me ≡ (C.given, [])) }
{
    cut::<C>(table, seat)
}

// Keeps the right that is given up, and hands out the others.
fn give_others<N: RowName, C: Cut>(
    table: &SharedRights,
    seat: &mut RightsSeat,
    stripe: &Stripe<N>,
    job: u32,
) -> RightsSeat
    requires table { (seat.old.table_id ≡ table.now.table_id) × (0 < table.now.table_id.words) }
    requires joined { seat.old.me.0
        ≡ seen (rights_at stripe.now.index stripe.now.order ++ drop (length stripe.now.order) seat.old.me.0.rights)
        seat.old.me.0.tickets 2 (number_met seat.old.me) }
    requires right { 1 ≤ times_right job stripe.now.index (drop (length stripe.now.order) seat.old.me.0.rights) }
    requires kept { C.kept ≡ seen (rights_at stripe.now.index (stripe.now.order ++ job ∷ [])) 0 1
        (number_met seat.old.me) }
    requires given { C.given
        ≡ seen (without job stripe.now.index (drop (length stripe.now.order) seat.old.me.0.rights))
        seat.old.me.0.tickets 1 (number_met seat.old.me) }
    ensures kept { (seat.new.table_id ≡ seat.old.table_id) × (seat.new.me ≡ (C.kept, seat.old.me.1)) }
    ensures given { (result.table_id ≡ seat.old.table_id) × (result.me ≡ (C.given, [])) }
{
    cut::<C>(table, seat)
}
