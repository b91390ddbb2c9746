//! The board of a round: jobs in a bag under a lock, and stripes under a lock each.
ghost use Rattle.std.specs.Prelude.{◌≡◌, ◌<◌, ◌≤◌, ◌+◌, [], IsPermutation, MatchOption, vec_len, length, ℕ, All, pos};
ghost use Rattle.std.specs.Prelude.{slice_index_or};
ghost use Rattle.def_sums.specs.Limits.{most_workers, most_stripes};
ghost use Rattle.def_history.specs.Core.{rights_of, times_right};
ghost use Rattle.def_history.specs.History.{sum_over_jobs};
ghost use Rattle.def_history.specs.Packets.{IsPacketOf};
ghost use Rattle.xg_jobs.specs.Rows.{all_rows};
ghost use Rattle.xg_locked.specs.Rights.{number_from, seen};
ghost use Rattle.xg_locked.specs.Locked.{number_met, without};
ghost use Rattle.xg_board.specs.Boards.{IsBoard};
ghost use Rattle.xg_board.specs.Holdings.{Holding, tickets_of};
ghost use Rattle.xg_board.specs.Visits.{steps_to};

use crate::close::{take_passes, take_stripes};
use crate::pass::Pass;
use crate::purse::Purse;
use std::marker::PhantomData;
use std::mem;
use std::sync::{Mutex, Wait};
use std::thread::Threads;
use xg_io::Gate;
use xg_jobs::Rows;
use xg_locked::{Bag, RightsBadge, RightsSeat, RightsTable, SeatedStripe, View, load, meet};
use xg_rowcore::{Packet, RowName};

/// The rows of one round behind locks, for workers that draw jobs and add what these bring.
///
/// The jobs that nobody has drawn lie in a bag under a lock of its own, and each stripe of the rows under another.
#[derive(Drop)]
pub struct RowBoard<N: RowName> {
    pub(crate) table: RightsTable,
    pub(crate) bag: Mutex<Bag<N>>,
    pub(crate) locked: Vec<Mutex<SeatedStripe<N>>>,
    pub(crate) rows: Rows,
    pub(crate) jobs: u32,
    pub(crate) stripes: u32,
    ghost kept: { IsBoard N.table table.shared.table_id N.jobs N.rows jobs stripes (vec_len locked) rows },
}

impl<N: RowName> RowBoard<N> {
    /// A pass for a worker, with a ticket and no right. The worker's number is for the gate, and for the stripe that it
    /// visits first.
    pub fn pass(&self, purse: &mut Purse<N>, worker: u32) -> Pass<N>
        requires number { purse.old.number ≡ number_from self.now.jobs self.now.stripes }
        requires few { purse.old.made < most_workers }
        ensures pass { result ≡ record { worker = worker; rights = []; tickets = 1; number = purse.old.number } }
        ensures purse { purse.new ≡ record { made = purse.old.made + 1; number = purse.old.number } }
    {
        Pass {
            worker,
            badge: purse.give(&self.table.shared).into_badge(),
            name: PhantomData,
        }
    }

    /// Draws a job that nobody has drawn, with the right to add it into each stripe. Where there is none, the pass is
    /// without its ticket from then on: it lies in the bag.
    pub fn draw<Rt: Threads + Wait + Sync>(&self, rt: &Rt, pass: &mut Pass<N>) -> Option<u32>
        requires number { pass.old.number ≡ number_from self.now.jobs self.now.stripes }
        requires no_right { pass.old.rights ≡ [] }
        requires ticket { pass.old.tickets ≡ 1 }
        ensures same { (pass.new.worker ≡ pass.old.worker) × (pass.new.number ≡ pass.old.number) }
        ensures rights { MatchOption result (pass.new.rights ≡ [])
            (λ job. pass.new.rights ≡ rights_of job self.now.stripes) }
        ensures ticket { MatchOption result (pass.new.tickets ≡ 0) (λ job. pass.new.tickets ≡ 1) }
        ensures job { MatchOption result (Unit {0}) (λ job. job < N.jobs) }
    {
        let seat = mem::replace(&mut pass.badge, RightsBadge::blank()).into_seat();
        let (job, seat) = self.bag.lock(rt).draw(&self.table.shared, seat);
        pass.badge = seat.into_badge();
        job
    }

    /// Adds a job's packet into every stripe, one after the other from stripe `worker mod stripes` on, each under its
    /// own lock. The pass gives up all rights of the job.
    pub fn add<Rt: Threads + Wait + Sync, G: Gate>(
        &self,
        rt: &Rt,
        pass: &mut Pass<N>,
        packet: &Packet,
        gate: &G,
    )
        requires number { pass.old.number ≡ number_from self.now.jobs self.now.stripes }
        requires rights { IsPermutation (rights_of packet.now.job self.now.stripes) pass.old.rights }
        requires job { packet.now.job < N.jobs }
        requires packet { IsPacketOf N.amount N.rows packet.now.job packet.now.entries.list }
        ensures same { (pass.new.worker ≡ pass.old.worker) × (pass.new.number ≡ pass.old.number) }
        ensures ticket { pass.new.tickets ≡ pass.old.tickets }
        ensures given_up { pass.new.rights ≡ [] }
    {
        let worker = pass.worker;
        let start = worker % self.stripes;
        let mut seat = mem::replace(&mut pass.badge, RightsBadge::blank()).into_seat();
        for i in 0..self.stripes {
            let stripe = visited(start, i, self.stripes);
            seat = self.add_at(rt, seat, packet, worker, stripe, gate);
        }
        pass.badge = seat.into_badge();
    }

    // Adds a packet into one stripe. The stripe of another number would be waited for without end.
    fn add_at<Rt: Threads + Wait + Sync, G: Gate>(
        &self,
        rt: &Rt,
        seat: RightsSeat,
        packet: &Packet,
        worker: u32,
        stripe: u32,
        gate: &G,
    ) -> RightsSeat
        requires stripe { stripe < self.now.stripes }
        requires seat { (seat.table_id ≡ N.table)
            × (seat.me ≡ (seen seat.me.0.rights seat.me.0.tickets 1 (number_met seat.me), [])) }
        requires job { packet.now.job < N.jobs }
        requires packet { IsPacketOf N.amount N.rows packet.now.job packet.now.entries.list }
        requires right { 1 ≤ times_right packet.now.job stripe seat.me.0.rights }
        ensures table { result.table_id ≡ N.table }
        ensures seat { result.me
            ≡ (seen (without packet.now.job stripe seat.me.0.rights) seat.me.0.tickets 1 (number_met seat.me), []) }
    {
        let mut locked = self.locked[stripe as usize].lock(rt);
        if locked.index() != stripe {
            for _ in rt.forever() {}
            unreachable!()
        }
        gate.within(rt, worker, stripe);
        locked.add(&self.table.shared, seat, packet)
    }

    /// Gathers all passes, the purse, the bag and the stripes, and answers at each row the sum of all jobs' amounts.
    pub fn close<Rt: Threads + Wait + Sync>(
        self,
        _rt: &Rt,
        purse: Purse<N>,
        passes: Vec<Pass<N>>,
    ) -> Rows
        requires number { purse.number ≡ number_from self.jobs self.stripes }
        requires all { length passes.items ≡ purse.made }
        requires no_rights { All (λ (p : Holding). p.rights ≡ []) passes.items }
        requires one_spent { tickets_of passes.items < purse.made }
        ensures one { length result.one ≡ length self.rows.one }
        ensures count { length (all_rows result) ≡ N.rows }
        ensures sums { (row : ℕ) → row < N.rows → slice_index_or (all_rows result) row (pos 0)
            ≡ sum_over_jobs N.amount N.jobs row }
    {
        let RowBoard {
            table,
            bag,
            locked,
            mut rows,
            jobs: _,
            stripes: _,
        } = self;
        let mut seat = bag.into_inner().into_seat();
        meet(&table.shared, &mut seat, purse.into_seat());
        take_passes(&table.shared, &mut seat, passes);
        take_stripes(&table.shared, &mut seat, &mut rows, locked);
        load(&table.shared, &mut seat);
        rows
    }
}

// The stripe that is visited after so many others.
fn visited(start: u32, visits: u32, stripes: u32) -> u32
    requires { (start < stripes) × (visits < stripes) × (stripes ≤ most_stripes) }
    ensures { (result < stripes) × (steps_to stripes start result ≡ visits) }
{
    if start + visits < stripes {
        start + visits
    } else {
        start + visits - stripes
    }
}
