//! A maker of rows by workers over atomic words.
ghost use Rattle.std.specs.Prelude.{◌≤◌, IfOk};
ghost use Rattle.def_sums.specs.Limits.{most_workers};
ghost use Rattle.xg_jobs.specs.Rows.{AreNumbersOf, ArePlainSums};
ghost use Rattle.xg_jobs.specs.Table.{IsTableOf};

use crate::fitting::fits_with;
use crate::run::run_words;
use std::alloc::{AllocError, Global};
use std::sync::Wait;
use std::thread::Threads;
use xg_board::run_rows;
use xg_io::Gate;
use xg_jobs::{JobTable, RowInput, Rows};
use xg_rowcore::USUAL_STRIPES;

/// Makes rows by workers in threads: as atomic words where the input fits, else behind locks in as many stripes as
/// [`USUAL_STRIPES`](xg_rowcore::USUAL_STRIPES) says.
///
/// It is a [`RowMaker`](xg_jobs::RowMaker) through [`MadeBy`](xg_board::MadeBy), with a closure that calls `rows`, as
/// [`LockedRows`](xg_board::LockedRows) is.
#[derive(Drop)]
pub struct AtomicRows<'g, G: Gate> {
    /// From 1 to 64.
    pub workers: u32,
    /// Where workers may be held up.
    pub gate: &'g G,
    ghost some: { 1 ≤ workers },
    ghost few: { workers ≤ most_workers },
}

impl<'g, G: Gate> AtomicRows<'g, G> {
    /// The plain sums over all leaves at each row.
    pub fn rows<Rt: Threads + Wait + Sync>(
        &self,
        rt: &Rt,
        alloc: Global,
        input: &RowInput<'_>,
        jobs: &JobTable,
    ) -> Result<Rows, AllocError>
        requires numbers { AreNumbersOf input.now.form.now input.now.one.now input.now.two.now }
        requires table { IsTableOf input.now.form.now jobs.now }
        ensures { IfOk result (λ rows. ArePlainSums input.now.form.now input.now.one.now input.now.two.now rows) }
    {
        let AtomicRows { workers, gate } = *self;
        if fits_with(jobs.mass(), input) {
            run_words(rt, alloc, input, jobs, workers, gate)
        } else {
            run_rows(rt, alloc, input, jobs, workers, USUAL_STRIPES, gate)
        }
    }
}
