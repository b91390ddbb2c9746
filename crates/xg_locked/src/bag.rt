//! The bag of the jobs that nobody has drawn.
ghost use Rattle.std.specs.Prelude.{◌≡◌, ◌<◌, ◌+◌, ◌-◌, ◌++◌, [], ◌∷◌, IfOk, IfSome, IfNone};
ghost use Rattle.std.specs.List.{range_with_len};
ghost use Rattle.def_sums.specs.Limits.{most_workers};
ghost use Rattle.def_history.specs.History.{job_numbers};
ghost use Rattle.def_history.specs.Core.{TakesJob, rights_of};
ghost use Rattle.xg_locked.specs.Rights.{job_count_of, rights_for, seen, stripes_of, whole_view};
ghost use Rattle.xg_locked.specs.Locked.{IsBag, number_met};

use crate::rule::Cut;
use crate::steps::{RightsSeat, SharedRights, cut, meet};
use crate::view::View;
use std::alloc::{AllocError, Global};
use std::marker::{Brand, PhantomData};
use xg_rowcore::RowName;

/// The jobs that nobody has drawn, and a seat with their rights.
///
/// The seat holds no ticket while a job is in the bag.
#[derive(Drop)]
pub struct Bag<N: RowName> {
    jobs: Vec<u32>,
    seat: RightsSeat,
    name: PhantomData<N>,
    ghost kept: { IsBag N.table N.jobs seat.table_id seat.me jobs.items },
}

impl<N: RowName> Bag<N> {
    /// The bag of all jobs, with all rights of the table's first seat.
    pub fn new(
        alloc: Global,
        table: &SharedRights,
        seat: &mut RightsSeat,
        jobs: u32,
    ) -> Result<Bag<N>, AllocError>
        requires table { (table.now.table_id ≡ N.table) × (0 < N.table.words) × (seat.old.table_id ≡ N.table) }
        requires seat { seat.old.me ≡ (whole_view (number_met seat.old.me), []) }
        requires jobs { (jobs ≡ N.jobs) × (jobs ≡ job_count_of (number_met seat.old.me)) }
        ensures bag { IfOk result (λ bag. bag.jobs.items ≡ job_numbers jobs) }
        ensures number { IfOk result (λ bag. number_met bag.seat.me ≡ number_met seat.old.me) }
        ensures table { IfOk result (λ bag. seat.new.table_id ≡ N.table) }
        ensures seat { let number = number_met seat.old.me in
            IfOk result
            (λ bag. seat.new.me ≡ (seen [] most_workers (stripes_of number + (most_workers + 1)) number, [])) }
    {
        let jobs = numbers_of(alloc, jobs)?;
        let all = give_all::<Brand>(table, seat);
        Ok(Bag {
            jobs,
            seat: all,
            name: PhantomData,
        })
    }

    /// Draws a job with all its rights, or leaves the ticket here where no job is left.
    pub fn draw(&mut self, table: &SharedRights, seat: RightsSeat) -> (Option<u32>, RightsSeat)
        requires table { (table.now.table_id ≡ N.table) × (0 < N.table.words) }
        requires seat { (seat.table_id ≡ N.table) × (seat.me ≡ (seen [] 1 1 (number_met seat.me), [])) }
        ensures table { result.1.table_id ≡ N.table }
        ensures some { let number = number_met seat.me in
            IfSome result.0 (λ job. result.1.me ≡ (seen (rights_of job (stripes_of number)) 1 1 number, [])) }
        ensures job { IfSome result.0 (λ job. job < N.jobs) }
        ensures step { IfSome result.0
            (λ job. TakesJob (stripes_of (number_met seat.me)) self.old.jobs.items seat.me.0.rights job
            self.new.jobs.items result.1.me.0.rights) }
        ensures none { IfNone result.0 (result.1.me ≡ (seen [] 0 1 (number_met seat.me), [])) }
        ensures empty { IfNone result.0 ((self.old.jobs.items ≡ []) × (self.new.jobs.items ≡ [])) }
    {
        meet(table, &mut self.seat, seat);
        match self.jobs.pop() {
            Some(job) => {
                let seat = give_job::<Brand>(table, &mut self.seat, &self.jobs, job);
                (Some(job), seat)
            }
            None => {
                let seat = give_none::<Brand>(table, &mut self.seat);
                (None, seat)
            }
        }
    }

    /// The seat, at the end.
    pub fn into_seat(self) -> RightsSeat
        ensures { result ≡ self.seat }
    {
        let Bag {
            jobs: _jobs,
            seat,
            name: _,
        } = self;
        seat
    }
}

// The numbers of all jobs.
fn numbers_of(alloc: Global, jobs: u32) -> Result<Vec<u32>, AllocError>
    ensures { IfOk result (λ numbers. numbers.items ≡ range_with_len 0 jobs) }
{
    let mut numbers = Vec::with_capacity(alloc, jobs as usize)?;
    for job in 0..jobs {
        numbers.push(job)?;
    }
    Ok(numbers)
}

// Hands out all rights, with one part.
fn give_all<C: Cut>(table: &SharedRights, seat: &mut RightsSeat) -> RightsSeat
    requires table { (seat.old.table_id ≡ table.now.table_id) × (0 < table.now.table_id.words) }
    requires whole { seat.old.me.0 ≡ whole_view (number_met seat.old.me) }
    requires kept { let number = number_met seat.old.me in
        C.kept ≡ seen [] most_workers (stripes_of number + (most_workers + 1)) number }
    requires given { let number = number_met seat.old.me in
        C.given ≡ seen (rights_for (job_numbers (job_count_of number)) (stripes_of number)) 0 1 number }
    ensures kept { (seat.new.table_id ≡ seat.old.table_id) × (seat.new.me ≡ (C.kept, seat.old.me.1)) }
    ensures given { (result.table_id ≡ seat.old.table_id) × (result.me ≡ (C.given, [])) }
{
    cut::<C>(table, seat)
}

// Hands out the rights of a job, with the ticket.
fn give_job<C: Cut>(
    table: &SharedRights,
    seat: &mut RightsSeat,
    rest: &[u32],
    job: u32,
) -> RightsSeat
    requires table { (seat.old.table_id ≡ table.now.table_id) × (0 < table.now.table_id.words) }
    requires joined { seat.old.me.0
        ≡ seen (rights_for (rest.now ++ job ∷ []) (stripes_of (number_met seat.old.me)) ++ []) 1 2
        (number_met seat.old.me) }
    requires kept { C.kept ≡ seen (rights_for rest.now (stripes_of (number_met seat.old.me))) 0 1
        (number_met seat.old.me) }
    requires given { C.given ≡ seen (rights_of job (stripes_of (number_met seat.old.me))) 1 1 (number_met seat.old.me) }
    ensures kept { (seat.new.table_id ≡ seat.old.table_id) × (seat.new.me ≡ (C.kept, seat.old.me.1)) }
    ensures given { (result.table_id ≡ seat.old.table_id) × (result.me ≡ (C.given, [])) }
{
    cut::<C>(table, seat)
}

// Keeps the ticket.
fn give_none<C: Cut>(table: &SharedRights, seat: &mut RightsSeat) -> RightsSeat
    requires table { (seat.old.table_id ≡ table.now.table_id) × (0 < table.now.table_id.words) }
    requires joined { seat.old.me.0 ≡ seen [] seat.old.me.0.tickets 2 (number_met seat.old.me) }
    requires kept { C.kept ≡ seen [] seat.old.me.0.tickets 1 (number_met seat.old.me) }
    requires given { C.given ≡ seen [] 0 1 (number_met seat.old.me) }
    ensures kept { (seat.new.table_id ≡ seat.old.table_id) × (seat.new.me ≡ (C.kept, seat.old.me.1)) }
    ensures given { (result.table_id ≡ seat.old.table_id) × (result.me ≡ (C.given, [])) }
{
    cut::<C>(table, seat)
}
