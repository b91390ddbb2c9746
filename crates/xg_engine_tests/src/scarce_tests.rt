//! Runs for which there is no memory at one of their requests for rows.
ghost use Rattle.std.specs.Thread.{IsSync};

use crate::calls::{read, run};
use crate::tests::{ROUNDS_OF_TWICE_HIDDEN, WorkedRounds, engine_of, play, settings_of};
use std::alloc::{AllocError, Global};
use std::marker::Sync;
use std::process::Abort;
use std::sync::Wait;
use std::sync::atomic::{AtomicU64, Ordering};
use std::test::Fail;
use std::thread::Threads;
use xg_engine::Engine;
use xg_jobs::{JobTable, PlainRows, RowInput, RowMaker, Rows, SmallRows};
use xg_test_data::files::TWICE_HIDDEN;

/// Makes rows by one loop, and has no memory at one of its calls, which are numbered from 1.
#[derive(Drop)]
struct ScarceRows {
    next: AtomicU64,
    refused: u64,
}

impl RowMaker for ScarceRows {
    ghost use Rattle.std.specs.Prelude.{false};

    ghost can_make = { λ _. Unit {0} };

    ghost by_packets = { λ _. false };

    ghost makes_small = { λ _. false };

    fn makes_packets(&self) -> bool {
        false
    }

    fn rows<Rt: Threads + Wait + Sync>(
        &self,
        rt: &Rt,
        alloc: Global,
        input: &RowInput<'_>,
        jobs: &JobTable,
    ) -> Result<Rows, AllocError> {
        if self.next.fetch_add(1, Ordering::SeqCst) == self.refused {
            return Err(AllocError);
        }
        PlainRows.rows(rt, alloc, input, jobs)
    }

    fn small_rows<Rt: Threads + Sync>(
        &self,
        _rt: &Rt,
        _input: &RowInput<'_>,
        _jobs: &JobTable,
        _rows: &mut SmallRows,
    ) -> bool {
        false
    }
}

/// More calls than a run makes.
const PAST_ALL: u64 = 100;

/// Whether the run was refused at this call, and then left nothing.
fn leaves_nothing<R: Abort + Threads + Wait + Sync>(
    rt: &R,
    alloc: Global,
    engine: &mut Engine,
    case: &WorkedRounds,
    refused: u64,
) -> bool
    requires { IsSync R.row }
{
    let maker = ScarceRows {
        next: AtomicU64::new(1),
        refused,
    };
    run(rt, alloc, engine, settings_of(rt, case), &maker).is_err()
        && engine.outcome().is_none()
        && engine.sums().is_none()
}

/// The first call that isn't refused, where each one before it is, leaves nothing, and is followed by a whole run.
fn first_taken<R: Abort + Threads + Wait + Sync>(
    rt: &R,
    alloc: Global,
    engine: &mut Engine,
    case: &WorkedRounds,
) -> Result<u64, Fail>
    requires { IsSync R.row }
{
    for refused in 1..PAST_ALL {
        if !leaves_nothing(rt, alloc, engine, case, refused) {
            return Ok(refused);
        }
        play(rt, alloc, engine, case)?;
    }
    Ok(PAST_ALL)
}

/// The same where each round is evaluated, and where the last one alone is.
fn first_taken_of_both<R: Abort + Threads + Wait + Sync>(
    rt: &R,
    alloc: Global,
    engine: &mut Engine,
) -> Result<(u64, u64), Fail>
    requires { IsSync R.row }
{
    let every_round = first_taken(rt, alloc, engine, &ROUNDS_OF_TWICE_HIDDEN[3])?;
    let last_round = first_taken(rt, alloc, engine, &ROUNDS_OF_TWICE_HIDDEN[6])?;
    Ok((every_round, last_round))
}

// A round asks for rows once, and so does an evaluation.
#[test]
fn a_run_after_want_of_memory_begins_anew(rt: HostRuntime) -> Result<(), Fail> {
    let alloc = rt.alloc();
    let mut engine = engine_of(alloc, read(&rt, alloc, TWICE_HIDDEN)?)?;
    let taken = first_taken_of_both(&rt, alloc, &mut engine);
    drop(engine);
    assert!(rt; taken? == (9, 6));
    Ok(())
}
