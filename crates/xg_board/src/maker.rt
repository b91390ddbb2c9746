//! Makers of rows by workers.
ghost use Rattle.std.specs.Prelude.{◌≤◌, IfOk};
ghost use Rattle.def_sums.specs.Limits.{most_workers, most_stripes};
ghost use Rattle.xg_jobs.specs.Rows.{AreNumbersOf, ArePlainSums};
ghost use Rattle.xg_jobs.specs.Table.{IsTableOf};

use crate::run::run_rows;
use std::alloc::{AllocError, Global};
use std::sync::Wait;
use std::thread::Threads;
use xg_io::Gate;
use xg_jobs::{JobTable, RowInput, RowMaker, Rows, SmallRows};

/// Makes rows by workers in threads, with the rows cut into stripes.
///
/// It is a [`RowMaker`] through [`MadeBy`], with a closure that calls `rows`: `docs/DECISIONS.md` says why.
#[derive(Drop)]
pub struct LockedRows<'g, G: Gate> {
    /// From 1 to 64.
    pub workers: u32,
    /// From 1 to 64.
    pub stripes: u32,
    /// Where workers may be held up.
    pub gate: &'g G,
    ghost some: { (1 ≤ workers) × (1 ≤ stripes) },
    ghost few: { (workers ≤ most_workers) × (stripes ≤ most_stripes) },
}

impl<'g, G: Gate> LockedRows<'g, G> {
    /// The plain sums over all leaves at each row.
    pub fn rows<Rt: Threads + Wait + Sync>(
        &self,
        rt: &Rt,
        alloc: Global,
        input: &RowInput<'_>,
        jobs: &JobTable,
    ) -> Result<Rows, AllocError>
        requires numbers { AreNumbersOf input.now.form.now input.now.one.now input.now.two.now }
        requires table { IsTableOf input.now.form.now jobs.now }
        ensures { IfOk result (λ rows. ArePlainSums input.now.form.now input.now.one.now input.now.two.now rows) }
    {
        let LockedRows {
            workers,
            stripes,
            gate,
        } = *self;
        run_rows(rt, alloc, input, jobs, workers, stripes, gate)
    }
}

/// Makes rows by a closure that does, and that may make packets of jobs.
#[derive(Drop)]
pub struct MadeBy<F> {
    pub make: F,
}

impl<F: Fn(&RowInput<'_>, &JobTable) -> Result<Rows, AllocError>> RowMaker for MadeBy<F> {
    ghost use Rattle.std.specs.Prelude.{IfOk, false, true};
    ghost use Rattle.xg_jobs.specs.Rows.{AreNumbersOf, ArePlainSums};
    ghost use Rattle.xg_jobs.specs.Table.{IsTableOf};

    // where rows can be made, the closure can be called and makes them
    ghost can_make = { λ m.
        ((input jobs : _) → AreNumbersOf input.now.form.now input.now.one.now input.now.two.now
        → IsTableOf input.now.form.now jobs.now → F.pre m.make input jobs)
        × ((input jobs : _) (made : _) → F.post m.make input jobs made
        → IfOk made (λ rows. ArePlainSums input.now.form.now input.now.one.now input.now.two.now rows)) };

    ghost by_packets = { λ _. true };

    ghost makes_small = { λ _. false };

    fn makes_packets(&self) -> bool {
        true
    }

    fn rows<Rt: Threads + Wait + Sync>(
        &self,
        _rt: &Rt,
        _alloc: Global,
        input: &RowInput<'_>,
        jobs: &JobTable,
    ) -> Result<Rows, AllocError> {
        (self.make)(input, jobs)
    }

    fn small_rows<Rt: Threads + Sync>(
        &self,
        _rt: &Rt,
        _input: &RowInput<'_>,
        _jobs: &JobTable,
        _rows: &mut SmallRows,
    ) -> bool {
        false
    }
}
