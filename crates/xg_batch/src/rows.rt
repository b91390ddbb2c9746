//! The rows that workers add into.
ghost use Rattle.std.specs.Prelude.{◌≤◌, IfOk};
ghost use Rattle.def_sums.specs.Limits.{most_workers};
ghost use Rattle.xg_jobs.specs.Rows.{AreNumbersOf, ArePlainSums};
ghost use Rattle.xg_jobs.specs.Table.{IsTableOf};

use std::alloc::{AllocError, Global};
use std::marker::Sync;
use std::sync::Wait;
use std::thread::Threads;
use xg_board::LockedRows;
use xg_io::Gate;
use xg_jobs::{JobTable, RowInput, Rows};
use xg_rowcore::USUAL_STRIPES;
use xg_words::AtomicRows;

/// The rows that several workers add into: behind locks, or as words without any.
#[derive(Drop)]
pub(crate) struct SharedRows<'g, G: Gate> {
    /// From 1 to 64.
    pub(crate) workers: u32,
    /// Whether the workers add without locks.
    pub(crate) atomic: bool,
    /// Where workers may be held up.
    pub(crate) gate: &'g G,
    ghost some: { 1 ≤ workers },
    ghost few: { workers ≤ most_workers },
}

impl<'g, G: Gate> SharedRows<'g, G> {
    /// The plain sums over all leaves at each row.
    pub(crate) fn rows<Rt: Threads + Wait + Sync>(
        &self,
        rt: &Rt,
        alloc: Global,
        input: &RowInput<'_>,
        jobs: &JobTable,
    ) -> Result<Rows, AllocError>
        requires numbers { AreNumbersOf input.now.form.now input.now.one.now input.now.two.now }
        requires table { IsTableOf input.now.form.now jobs.now }
        ensures { IfOk result (λ rows. ArePlainSums input.now.form.now input.now.one.now input.now.two.now rows) }
    {
        let SharedRows { workers, gate, .. } = *self;
        if self.atomic {
            return AtomicRows { workers, gate }.rows(rt, alloc, input, jobs);
        }
        let locked = LockedRows {
            workers,
            stripes: USUAL_STRIPES,
            gate,
        };
        locked.rows(rt, alloc, input, jobs)
    }
}
