//! Traces, ends and sums of rounds of CFR+ that are known from outside.
ghost use Rattle.std.specs.Thread.{IsSync};
ghost use Rattle.def_plus.specs.declared.Variant.TheVariants.{Plus};
ghost use Rattle.xg_engine.specs.State.{AreWithinLimitsOf};
ghost use Rattle.xg_plus.specs.Settings.{ArePlusSettings};

use crate::calls::{open_plus, read, run_plus, run_variant};
use crate::tests::{Line, ROUNDS_OF_PENNIES, assert_lines, engine_of, play};
use std::alloc::Global;
use std::marker::{Send, Sync};
use std::process::Abort;
use std::sync::Wait;
use std::test::Fail;
use std::thread::Threads;
use xg_cert::Outcome;
use xg_engine::{Engine, Settings, Variant};
use xg_game::Game;
use xg_gen::one_card_poker;
use xg_jobs::PlainRows;
use xg_plus::PlusEngine;
use xg_test_data::files::{ONE_MOVER, PENNIES};

/// What is asked of a run of CFR+.
#[derive(Clone, Copy, Drop)]
struct Asked {
    rounds: u32,
    every: u32,
    scale: u32,
}

/// What is asked, with the trace and both ends' plans that the run leaves; without rounds these are empty.
#[derive(Clone, Copy, Drop)]
struct PlusRun {
    asked: Asked,
    trace: &'static [Line],
    lower: &'static [u64],
    upper: &'static [u64],
}

static RUNS_OF_ONE_MOVER: [PlusRun; 2] = [
    PlusRun {
        asked: Asked {
            rounds: 2,
            every: 1,
            scale: 16,
        },
        trace: &[(1, 1, 8, 1, 16), (2, 2, 40, 1, 16)],
        lower: &[48, 40, 8],
        upper: &[16],
    },
    PlusRun {
        asked: Asked {
            rounds: 6,
            every: 4,
            scale: 16,
        },
        trace: &[(4, 4, 152, 4, 160), (6, 6, 328, 4, 160)],
        lower: &[336, 328, 8],
        upper: &[160],
    },
];

static RUNS_OF_PENNIES: [PlusRun; 6] = [
    PlusRun {
        asked: Asked {
            rounds: 6,
            every: 1,
            scale: 1,
        },
        trace: &[
            (1, 1, -1, 1, 1),
            (2, 1, -1, 2, 1),
            (3, 1, -1, 2, 1),
            (4, 4, -2, 2, 1),
            (5, 4, -2, 5, 3),
            (6, 6, -3, 6, 3),
        ],
        lower: &[21, 9, 12],
        upper: &[21, 9, 12],
    },
    PlusRun {
        asked: Asked {
            rounds: 3,
            every: 1,
            scale: 1,
        },
        trace: &[(1, 1, -1, 1, 1), (2, 1, -1, 2, 1), (3, 1, -1, 2, 1)],
        lower: &[1, 0, 1],
        upper: &[3, 2, 1],
    },
    PlusRun {
        asked: Asked {
            rounds: 0,
            every: 1,
            scale: 1,
        },
        trace: &[],
        lower: &[],
        upper: &[],
    },
    PlusRun {
        asked: Asked {
            rounds: 6,
            every: 4,
            scale: 1,
        },
        trace: &[(4, 4, -2, 4, 8), (6, 6, -3, 6, 3)],
        lower: &[21, 9, 12],
        upper: &[21, 9, 12],
    },
    PlusRun {
        asked: Asked {
            rounds: 6,
            every: 1,
            scale: 7,
        },
        trace: &[
            (1, 1, -1, 1, 1),
            (2, 1, -1, 1, 1),
            (3, 3, 0, 1, 1),
            (4, 3, 0, 4, 6),
            (5, 3, 0, 4, 6),
            (6, 3, 0, 4, 6),
        ],
        lower: &[42, 21, 21],
        upper: &[70, 38, 32],
    },
    PlusRun {
        asked: Asked {
            rounds: 6,
            every: 2,
            scale: 7,
        },
        trace: &[(2, 2, -15, 2, 13), (4, 4, -28, 4, 6), (6, 6, -5, 4, 6)],
        lower: &[147, 76, 71],
        upper: &[70, 38, 32],
    },
];

static RUNS_OF_POKER: [PlusRun; 2] = [
    PlusRun {
        asked: Asked {
            rounds: 6,
            every: 1,
            scale: 100,
        },
        trace: &[
            (1, 1, -250, 1, 300),
            (2, 2, -650, 2, 500),
            (3, 3, -889, 2, 500),
            (4, 4, -1241, 4, 968),
            (5, 5, -1351, 5, 577),
            (6, 6, -1057, 6, 485),
        ],
        lower: &[
            2100, 1766, 334, 1741, 25, 1658, 442, 837, 821, 1201, 899, 25, 1176,
        ],
        upper: &[
            2100, 1426, 674, 421, 1679, 50, 2050, 50, 2050, 1478, 622, 2050, 50,
        ],
    },
    PlusRun {
        asked: Asked {
            rounds: 4,
            every: 2,
            scale: 100,
        },
        trace: &[(2, 2, -650, 2, 500), (4, 4, -1241, 4, 968)],
        lower: &[
            1000, 666, 334, 641, 25, 573, 427, 25, 548, 573, 427, 25, 548,
        ],
        upper: &[1000, 326, 674, 50, 950, 50, 950, 50, 950, 378, 622, 950, 50],
    },
];

/// The settings, where they are within the limits of CFR+.
fn settings_of(rt: &impl Abort, asked: Asked) -> Settings
    ensures plus { ArePlusSettings result }
    ensures variant { AreWithinLimitsOf Plus result }
{
    assert!(rt; asked.rounds <= 2_048);
    assert!(rt; 1 <= asked.every && asked.every <= 65_536);
    assert!(rt; 1 <= asked.scale && asked.scale <= 16_384);
    Settings {
        rounds: asked.rounds,
        every: asked.every,
        scale: asked.scale,
    }
}

fn has_ends(outcome: &Outcome, run: &PlusRun) -> bool {
    match outcome.ends() {
        Some((lower, upper)) => {
            lower.plan.weights() == run.lower && upper.plan.weights() == run.upper
        }
        None => run.asked.rounds == 0,
    }
}

fn assert_left(rt: &impl Abort, outcome: Option<&Outcome>, run: &PlusRun) {
    match outcome {
        Some(outcome) => {
            assert_lines(rt, outcome.trace(), run.trace);
            assert!(rt; has_ends(outcome, run));
        }
        None => assert!(rt; false, "no outcome"),
    }
}

/// Runs on an engine that may have run before.
fn play_plus<R: Abort + Threads + Wait + Sync>(
    rt: &R,
    alloc: Global,
    engine: &mut PlusEngine,
    run: &PlusRun,
) -> Result<(), Fail>
    requires { IsSync R.row }
{
    run_plus(rt, alloc, engine, settings_of(rt, run.asked), &PlainRows)?;
    assert_left(rt, engine.outcome(), run);
    Ok(())
}

fn play_each_plus<R: Abort + Threads + Wait + Sync>(
    rt: &R,
    alloc: Global,
    engine: &mut PlusEngine,
    runs: &[PlusRun],
) -> Result<(), Fail>
    requires { IsSync R.row }
{
    assert!(rt; engine.outcome().is_none());
    for run in runs {
        play_plus(rt, alloc, engine, run)?;
    }
    Ok(())
}

fn plus_engine_of(alloc: Global, game: Game) -> Result<PlusEngine, Fail> {
    let engine = open_plus(alloc, &game);
    drop(game);
    engine
}

/// Runs one after the other on one engine of CFR+.
fn play_all_plus<R: Abort + Threads + Wait + Sync>(
    rt: &R,
    alloc: Global,
    game: Game,
    runs: &[PlusRun],
) -> Result<(), Fail>
    requires { IsSync R.row }
{
    let mut engine = plus_engine_of(alloc, game)?;
    let played = play_each_plus(rt, alloc, &mut engine, runs);
    drop(engine);
    played
}

#[test]
fn plus_rounds_of_one_mover(rt: HostRuntime) -> Result<(), Fail> {
    let game = read(&rt, rt.alloc(), ONE_MOVER)?;
    play_all_plus(&rt, rt.alloc(), game, &RUNS_OF_ONE_MOVER)
}

#[test]
fn plus_rounds_of_pennies(rt: HostRuntime) -> Result<(), Fail> {
    let game = read(&rt, rt.alloc(), PENNIES)?;
    play_all_plus(&rt, rt.alloc(), game, &RUNS_OF_PENNIES)
}

#[test]
fn plus_rounds_of_poker(rt: HostRuntime) -> Result<(), Fail> {
    let game = one_card_poker(rt.alloc(), 3)?;
    play_all_plus(&rt, rt.alloc(), game, &RUNS_OF_POKER)
}

/// The sums of both players' plans after rounds of CFR+ in matching pennies.
#[derive(Clone, Copy, Drop)]
struct PlusSums {
    rounds: u32,
    one: &'static [u64],
    two: &'static [u64],
}

static SUMS_OF_PENNIES: [PlusSums; 5] = [
    PlusSums {
        rounds: 1,
        one: &[1, 0, 1],
        two: &[1, 0, 1],
    },
    PlusSums {
        rounds: 2,
        one: &[3, 0, 3],
        two: &[3, 2, 1],
    },
    PlusSums {
        rounds: 3,
        one: &[6, 0, 6],
        two: &[6, 5, 1],
    },
    PlusSums {
        rounds: 4,
        one: &[10, 4, 6],
        two: &[10, 9, 1],
    },
    PlusSums {
        rounds: 6,
        one: &[21, 9, 12],
        two: &[21, 9, 12],
    },
];

fn has_sums(engine: &Engine, row: &PlusSums) -> bool {
    match engine.sums() {
        Some(sums) => sums.0.weights() == row.one && sums.1.weights() == row.two,
        None => false,
    }
}

/// Rounds of CFR+, and then plain ones on the same engine.
fn play_both_variants<R: Abort + Threads + Wait + Sync>(
    rt: &R,
    alloc: Global,
    engine: &mut Engine,
    row: &PlusSums,
) -> Result<(), Fail>
    requires { IsSync R.row }
{
    let asked = Asked {
        rounds: row.rounds,
        every: 1,
        scale: 1,
    };
    run_variant(
        rt,
        alloc,
        engine,
        Variant::Plus,
        settings_of(rt, asked),
        &PlainRows,
    )?;
    assert!(rt; has_sums(engine, row));
    play(rt, alloc, engine, &ROUNDS_OF_PENNIES[0])
}

fn play_variants_in_turn<R: Abort + Threads + Wait + Sync>(
    rt: &R,
    alloc: Global,
    engine: &mut Engine,
) -> Result<(), Fail>
    requires { IsSync R.row }
{
    for row in &SUMS_OF_PENNIES {
        play_both_variants(rt, alloc, engine, row)?;
    }
    Ok(())
}

#[test]
fn plain_rounds_after_plus_rounds(rt: HostRuntime) -> Result<(), Fail> {
    let mut engine = engine_of(rt.alloc(), read(&rt, rt.alloc(), PENNIES)?)?;
    let played = play_variants_in_turn(&rt, rt.alloc(), &mut engine);
    drop(engine);
    played
}

fn crosses_threads<T: Send + Sync>() {}

#[test]
fn engines_of_plus_cross_threads() {
    crosses_threads::<PlusEngine>();
}
