//! The run of all workers over the jobs of a round.
ghost use Rattle.std.specs.Prelude.{◌≤◌, IfOk};
ghost use Rattle.def_sums.specs.Limits.{most_workers};
ghost use Rattle.xg_jobs.specs.JobAmounts.{IsRoundOf};
ghost use Rattle.xg_jobs.specs.Rows.{AreNumbersOf, ArePlainSums};
ghost use Rattle.xg_jobs.specs.Table.{IsTableOf};
ghost use Rattle.def_words.specs.Amounts.{HaveRoom};
ghost use Rattle.xg_words.specs.Running.{HasSmallSums};

use crate::board::WordBoard;
use crate::crew::{join_all, make_crew, work_all};
use std::alloc::{AllocError, Global};
use std::marker::Brand;
use std::sync::Wait;
use std::thread::Threads;
use xg_io::Gate;
use xg_jobs::{JobTable, RowInput, Rows};
use xg_rowcore::RowName;

// Runs the workers of a named board.
fn run_named<Rt: Threads + Wait + Sync, N: RowName + Send + Sync, G: Gate>(
    rt: &Rt,
    alloc: Global,
    input: &RowInput<'_>,
    jobs: &JobTable,
    workers: u32,
    gate: &G,
) -> Result<Rows, AllocError>
    requires round { IsRoundOf N.jobs N.rows N.amount input.now jobs.now }
    requires room { HaveRoom N.jobs N.rows N.amount }
    requires workers { (1 ≤ workers) × (workers ≤ most_workers) }
    ensures { IfOk result (λ rows. ArePlainSums input.now.form.now input.now.one.now input.now.two.now rows) }
{
    let (board, mut owner) = WordBoard::<N>::open(alloc, input.form, jobs)?;
    // one worker at least has to find no job left, even if there is none
    let count = workers.min(jobs.count().max(1));
    let mut crew = make_crew(alloc, &board, &mut owner, jobs.room(), count)?;
    work_all(rt, &board, input, jobs, &mut crew, gate);
    join_all(&board, &mut owner, crew);
    Ok(board.close(owner))
}

/// The plain sums over all leaves at each row, by at most so many workers in threads, with no lock.
///
/// Where a thread can't be started the caller does its work.
pub fn run_words<Rt: Threads + Wait + Sync, G: Gate>(
    rt: &Rt,
    alloc: Global,
    input: &RowInput<'_>,
    jobs: &JobTable,
    workers: u32,
    gate: &G,
) -> Result<Rows, AllocError>
    requires numbers { AreNumbersOf input.now.form.now input.now.one.now input.now.two.now }
    requires table { IsTableOf input.now.form.now jobs.now }
    requires workers { (1 ≤ workers) × (workers ≤ most_workers) }
    requires fits { HasSmallSums input.now.form.now input.now.one.now input.now.two.now }
    ensures { IfOk result (λ rows. ArePlainSums input.now.form.now input.now.one.now input.now.two.now rows) }
{
    // a form's mass is small, and so are the jobs' amounts
    input.form.facts();
    run_named::<Rt, Brand, G>(rt, alloc, input, jobs, workers, gate)
}
