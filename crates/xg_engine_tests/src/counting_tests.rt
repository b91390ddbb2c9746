//! How often a run asks its maker for rows.
ghost use Rattle.std.specs.Thread.{IsSync};

use crate::calls::{read, run};
use crate::tests::{
    HEAVY_PENNIES, ROUNDS_OF_HEAVY_PENNIES, ROUNDS_OF_TWICE_HIDDEN, WorkedRounds, engine_of,
    settings_of,
};
use std::alloc::{AllocError, Global};
use std::marker::Sync;
use std::process::Abort;
use std::sync::Wait;
use std::sync::atomic::{AtomicU64, Ordering};
use std::test::Fail;
use std::thread::Threads;
use xg_engine::Engine;
use xg_jobs::{JobTable, PlainRows, RowInput, RowMaker, Rows, SmallRows};
use xg_test_data::files::TWICE_HIDDEN;

/// Makes rows by one loop, and counts how often each width is asked for.
#[derive(Drop)]
struct CountedRows {
    small: AtomicU64,
    wide: AtomicU64,
}

impl RowMaker for CountedRows {
    ghost use Rattle.std.specs.Prelude.{false, true};

    ghost can_make = { λ _. Unit {0} };

    ghost by_packets = { λ _. false };

    ghost makes_small = { λ _. true };

    fn makes_packets(&self) -> bool {
        false
    }

    fn rows<Rt: Threads + Wait + Sync>(
        &self,
        rt: &Rt,
        alloc: Global,
        input: &RowInput<'_>,
        jobs: &JobTable,
    ) -> Result<Rows, AllocError> {
        self.wide.fetch_add(1, Ordering::SeqCst);
        PlainRows.rows(rt, alloc, input, jobs)
    }

    fn small_rows<Rt: Threads + Sync>(
        &self,
        rt: &Rt,
        input: &RowInput<'_>,
        jobs: &JobTable,
        rows: &mut SmallRows,
    ) -> bool {
        self.small.fetch_add(1, Ordering::SeqCst);
        PlainRows.small_rows(rt, input, jobs, rows)
    }
}

/// How often a run of this case asks for rows of 64 bits, and for those of 128.
fn calls_of<R: Abort + Threads + Wait + Sync>(
    rt: &R,
    alloc: Global,
    engine: &mut Engine,
    case: &WorkedRounds,
) -> Result<(u64, u64), AllocError>
    requires { IsSync R.row }
{
    let maker = CountedRows {
        small: AtomicU64::new(0),
        wide: AtomicU64::new(0),
    };
    run(rt, alloc, engine, settings_of(rt, case), &maker)?;
    let small = maker.small.load(Ordering::SeqCst);
    Ok((small, maker.wide.load(Ordering::SeqCst)))
}

/// The same for two cases of a game.
fn calls_of_both<R: Abort + Threads + Wait + Sync>(
    rt: &R,
    alloc: Global,
    file: &str,
    one: &WorkedRounds,
    two: &WorkedRounds,
) -> Result<((u64, u64), (u64, u64)), Fail>
    requires { IsSync R.row }
{
    let mut engine = engine_of(alloc, read(rt, alloc, file)?)?;
    let first = calls_of(rt, alloc, &mut engine, one);
    let second = calls_of(rt, alloc, &mut engine, two);
    drop(engine);
    Ok((first?, second?))
}

// Four rounds with four evaluations, and with one.
#[test]
fn small_rows_are_asked_for_once_a_round_and_an_evaluation(rt: HostRuntime) -> Result<(), Fail> {
    let (every_round, last_round) = calls_of_both(
        &rt,
        rt.alloc(),
        TWICE_HIDDEN,
        &ROUNDS_OF_TWICE_HIDDEN[3],
        &ROUNDS_OF_TWICE_HIDDEN[6],
    )?;
    assert!(rt; every_round == (8, 0) && last_round == (5, 0));
    Ok(())
}

// Three rounds and their evaluation, whose numbers are three times as large: the rounds of the first case alone
// are small.
#[test]
fn wide_rows_are_asked_for_where_small_ones_have_no_room(rt: HostRuntime) -> Result<(), Fail> {
    let (small_rounds, wide_rounds) = calls_of_both(
        &rt,
        rt.alloc(),
        HEAVY_PENNIES,
        &ROUNDS_OF_HEAVY_PENNIES[0],
        &ROUNDS_OF_HEAVY_PENNIES[1],
    )?;
    assert!(rt; small_rounds == (4, 1) && wide_rounds == (4, 4));
    Ok(())
}
