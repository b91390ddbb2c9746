//! Rows by one loop, without workers.
ghost use Rattle.std.specs.Prelude.{◌≡◌, ◌↔◌, ◌*◌, ◌^◌, ◌<◌, max, true, IsTrue, length};
ghost use Rattle.std.specs.Thread.{IsSync};
ghost use Rattle.def_plan.specs.Form.{sequence_count};
ghost use Rattle.xg_jobs.specs.Groups.{greatest_of};
ghost use Rattle.xg_jobs.specs.Rows.{AreNumbersOf, ArePlainSums, HaveSmallRows};
ghost use Rattle.xg_jobs.specs.Table.{HasLeavesOf};

use crate::input::RowInput;
use crate::maker::RowMaker;
use crate::rows::{Rows, SmallRows};
use crate::table::JobTable;
use std::alloc::{AllocError, Global};
use std::sync::Wait;
use std::thread::Threads;

/// Makes rows by one loop over all leaves, on the caller's thread.
#[derive(Clone, Copy)]
pub struct PlainRows;

impl RowMaker for PlainRows {
    ghost use Rattle.std.specs.Prelude.{false, true};

    ghost can_make = { λ _. Unit {0} };

    ghost by_packets = { λ _. false };

    ghost makes_small = { λ _. true };

    fn makes_packets(&self) -> bool {
        false
    }

    fn rows<Rt: Threads + Wait + Sync>(
        &self,
        rt: &Rt,
        alloc: Global,
        input: &RowInput<'_>,
        jobs: &JobTable,
    ) -> Result<Rows, AllocError> {
        let mut rows = Rows::new(alloc, input.form)?;
        let mut small = SmallRows::new(alloc, input.form)?;
        if jobs.write_small_to(rt, input, &mut small, None) {
            rows.widen(&small);
        } else {
            jobs.write_to(rt, input, &mut rows);
        }
        Ok(rows)
    }

    fn small_rows<Rt: Threads + Sync>(
        &self,
        rt: &Rt,
        input: &RowInput<'_>,
        jobs: &JobTable,
        rows: &mut SmallRows,
    ) -> bool
        requires sync { IsSync Rt.row }
        requires numbers { AreNumbersOf input.now.form.now input.now.one.now input.now.two.now }
        requires table { HasLeavesOf input.now.form.now jobs.now }
        requires rows_one { length rows.old.one ≡ sequence_count input.now.form.now.sets_one }
        requires rows_two { length rows.old.two ≡ sequence_count input.now.form.now.sets_two }
        ensures small { IsTrue result ↔ (IsTrue true
            × HaveSmallRows input.now.form.now input.now.one.now input.now.two.now) }
        ensures fits { let most = max (greatest_of input.now.one.now) (greatest_of input.now.two.now) in
            IsTrue result ↔ jobs.now.mass * most < 2 ^ 63 }
        ensures sums { IsTrue result → ArePlainSums input.now.form.now input.now.one.now input.now.two.now rows.new }
        ensures count_one { length rows.new.one ≡ length rows.old.one }
        ensures count_two { length rows.new.two ≡ length rows.old.two }
    {
        jobs.write_small_to(rt, input, rows, None)
    }
}
