//! Rows by several threads, each with rows of its own.
ghost use Rattle.std.specs.Prelude.{◌≡◌, ◌↔◌, ◌*◌, ◌^◌, ◌<◌, max, true, IsTrue, length};
ghost use Rattle.std.specs.Thread.{IsSync};
ghost use Rattle.def_plan.specs.Form.{sequence_count};
ghost use Rattle.xg_jobs.specs.Groups.{greatest_of};
ghost use Rattle.xg_jobs.specs.Rows.{AreNumbersOf, ArePlainSums, HaveSmallRows};
ghost use Rattle.xg_jobs.specs.Table.{HasLeavesOf};

use crate::input::RowInput;
use crate::maker::RowMaker;
use crate::plain::PlainRows;
use crate::rows::{Rows, SmallRows};
use crate::spare::SpareRows;
use crate::table::JobTable;
use std::alloc::{AllocError, Global};
use std::cell::RefCell;
use std::sync::Wait;
use std::thread::Threads;
use xg_seq::SeqForm;

/// Makes rows as `PlainRows` does, those of 64 bits by four threads where there are so many leaves that threads pay.
///
/// Each thread has rows of its own, which are added up behind it. Where threads are late, which they are where
/// processors are busy, the rows are made by one thread for some time.
#[derive(Drop)]
pub struct ThreadedRows {
    spare: RefCell<SpareRows>,
}

impl ThreadedRows {
    /// With the room that threads need for the rows of this form.
    pub fn new(alloc: Global, form: &SeqForm) -> Result<ThreadedRows, AllocError> {
        Ok(ThreadedRows {
            spare: RefCell::new(SpareRows::new(alloc, form)?),
        })
    }
}

impl RowMaker for ThreadedRows {
    ghost use Rattle.std.specs.Prelude.{false, true};

    ghost can_make = { λ _. Unit {0} };

    ghost by_packets = { λ _. false };

    ghost makes_small = { λ _. true };

    fn makes_packets(&self) -> bool {
        false
    }

    fn has_idle_threads(&self) -> bool {
        match self.spare.try_borrow() {
            Ok(spare) => spare.for_players && spare.pace.is_unbroken(),
            Err(_) => false,
        }
    }

    fn rows<Rt: Threads + Wait + Sync>(
        &self,
        rt: &Rt,
        alloc: Global,
        input: &RowInput<'_>,
        jobs: &JobTable,
    ) -> Result<Rows, AllocError> {
        PlainRows.rows(rt, alloc, input, jobs)
    }

    fn small_rows<Rt: Threads + Sync>(
        &self,
        rt: &Rt,
        input: &RowInput<'_>,
        jobs: &JobTable,
        rows: &mut SmallRows,
    ) -> bool
        requires sync { IsSync Rt.row }
        requires numbers { AreNumbersOf input.now.form.now input.now.one.now input.now.two.now }
        requires table { HasLeavesOf input.now.form.now jobs.now }
        requires rows_one { length rows.old.one ≡ sequence_count input.now.form.now.sets_one }
        requires rows_two { length rows.old.two ≡ sequence_count input.now.form.now.sets_two }
        ensures small { IsTrue result ↔ (IsTrue true
            × HaveSmallRows input.now.form.now input.now.one.now input.now.two.now) }
        ensures fits { let most = max (greatest_of input.now.one.now) (greatest_of input.now.two.now) in
            IsTrue result ↔ jobs.now.mass * most < 2 ^ 63 }
        ensures sums { IsTrue result → ArePlainSums input.now.form.now input.now.one.now input.now.two.now rows.new }
        ensures count_one { length rows.new.one ≡ length rows.old.one }
        ensures count_two { length rows.new.two ≡ length rows.old.two }
    {
        match self.spare.try_borrow_mut() {
            Ok(mut spare) => jobs.write_small_to(rt, input, rows, Some(&mut spare)),
            Err(_) => jobs.write_small_to(rt, input, rows, None),
        }
    }
}
