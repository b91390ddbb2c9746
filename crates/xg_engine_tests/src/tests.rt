//! Sums and traces that are known from outside.
ghost use Rattle.std.specs.Thread.{IsSync};
ghost use Rattle.xg_engine.specs.State.{AreWithinLimits};

use crate::calls::{open, read, run};
use std::alloc::Global;
use std::marker::{Send, Sync};
use std::process::Abort;
use std::sync::Wait;
use std::test::Fail;
use std::thread::Threads;
use xg_cert::TraceRow;
use xg_engine::{Engine, Settings};
use xg_game::Game;
use xg_gen::one_card_poker;
use xg_jobs::PlainRows;
use xg_test_data::files::{ONE_MOVER, PENNIES, TWICE_HIDDEN};
use xg_test_data::is_same_line;

/// A line of a trace in the order of the certificate: the round, the lower end's round and total, the upper end's.
pub(crate) type Line = (u32, u32, i128, u32, i128);

/// What is asked of a run, with the sums of both players' plans and the trace that it leaves.
#[derive(Clone, Copy, Drop)]
pub(crate) struct WorkedRounds {
    rounds: u32,
    every: u32,
    scale: u32,
    one: &'static [u64],
    two: &'static [u64],
    trace: &'static [Line],
}

const ROUNDS_OF_ONE_MOVER: &[WorkedRounds] = &[
    WorkedRounds {
        rounds: 2,
        every: 1,
        scale: 1_048_576,
        one: &[2_097_152, 1_572_864, 524_288],
        two: &[2_097_152],
        trace: &[
            (1, 1, 524_288, 1, 1_048_576),
            (2, 2, 1_572_864, 1, 1_048_576),
        ],
    },
    WorkedRounds {
        rounds: 0,
        every: 1,
        scale: 1_048_576,
        one: &[0, 0, 0],
        two: &[0],
        trace: &[],
    },
];

pub(crate) const ROUNDS_OF_PENNIES: &[WorkedRounds] = &[
    WorkedRounds {
        rounds: 3,
        every: 2,
        scale: 1,
        one: &[3, 0, 3],
        two: &[3, 2, 1],
        trace: &[(2, 2, -2, 2, 0), (3, 2, -2, 2, 0)],
    },
    WorkedRounds {
        rounds: 2,
        every: 1,
        scale: 1,
        one: &[2, 0, 2],
        two: &[2, 1, 1],
        trace: &[(1, 1, -1, 1, 1), (2, 1, -1, 2, 0)],
    },
];

pub(crate) const ROUNDS_OF_TWICE_HIDDEN: &[WorkedRounds] = &[
    WorkedRounds {
        rounds: 1,
        every: 1,
        scale: 10,
        one: &[10, 3, 3, 4, 1, 2, 1, 2],
        two: &[10, 3, 3, 4, 1, 2, 1, 2],
        trace: &[(1, 1, -26, 1, 7)],
    },
    WorkedRounds {
        rounds: 2,
        every: 2,
        scale: 10,
        one: &[20, 10, 6, 4, 1, 9, 1, 5],
        two: &[20, 3, 3, 14, 1, 2, 1, 2],
        trace: &[(2, 2, -88, 2, 8)],
    },
    WorkedRounds {
        rounds: 3,
        every: 3,
        scale: 10,
        one: &[30, 12, 6, 12, 1, 11, 1, 5],
        two: &[30, 3, 3, 24, 1, 2, 1, 2],
        trace: &[(3, 3, -66, 3, 48)],
    },
    WorkedRounds {
        rounds: 4,
        every: 1,
        scale: 10,
        one: &[40, 12, 6, 22, 1, 11, 1, 5],
        two: &[40, 7, 3, 30, 1, 6, 1, 2],
        trace: &[
            (1, 1, -26, 1, 7),
            (2, 1, -26, 2, 8),
            (3, 3, -66, 2, 8),
            (4, 3, -66, 2, 8),
        ],
    },
    WorkedRounds {
        rounds: 4,
        every: 2,
        scale: 10,
        one: &[40, 12, 6, 22, 1, 11, 1, 5],
        two: &[40, 7, 3, 30, 1, 6, 1, 2],
        trace: &[(2, 2, -88, 2, 8), (4, 2, -88, 2, 8)],
    },
    WorkedRounds {
        rounds: 4,
        every: 3,
        scale: 10,
        one: &[40, 12, 6, 22, 1, 11, 1, 5],
        two: &[40, 7, 3, 30, 1, 6, 1, 2],
        trace: &[(3, 3, -66, 3, 48), (4, 3, -66, 4, 28)],
    },
    WorkedRounds {
        rounds: 4,
        every: 9,
        scale: 10,
        one: &[40, 12, 6, 22, 1, 11, 1, 5],
        two: &[40, 7, 3, 30, 1, 6, 1, 2],
        trace: &[(4, 4, -176, 4, 28)],
    },
];

/// Pennies of which one pays twice as much. Their sizes together are 5 times 2^43, so that the sums of a round with the
/// scale 209,715 surely have room in 64 bits, and those with the next scale don't.
pub(crate) const HEAVY_PENNIES: &str = r#"EFG 2 R "" { "One" "Two" }
p "" 1 1 { "" "" } 0
p "" 2 1 { "" "" } 0
t "" 1 { 8796093022208, -8796093022208 }
t "" 2 { -8796093022208, 8796093022208 }
p "" 2 1 0
t "" 2
t "" 3 { 17592186044416, -17592186044416 }
"#;

pub(crate) const ROUNDS_OF_HEAVY_PENNIES: &[WorkedRounds] = &[
    WorkedRounds {
        rounds: 3,
        every: 3,
        scale: 209_715,
        one: &[629_145, 288_354, 340_791],
        two: &[629_145, 524_287, 104_858],
        trace: &[(3, 3, -461_240_729_805_520_896, 3, 3_689_336_500_211_679_232)],
    },
    WorkedRounds {
        rounds: 3,
        every: 3,
        scale: 209_716,
        one: &[629_148, 288_359, 340_789],
        two: &[629_148, 524_290, 104_858],
        trace: &[(3, 3, -461_179_157_154_365_440, 3, 3_689_362_888_490_745_856)],
    },
];

/// The settings, where they are within their limits.
pub(crate) fn settings_of(rt: &impl Abort, case: &WorkedRounds) -> Settings
    ensures { AreWithinLimits result }
{
    assert!(rt; case.rounds <= 65_536);
    assert!(rt; 1 <= case.every && case.every <= 65_536);
    assert!(rt; 1 <= case.scale && case.scale <= 1_048_576);
    Settings {
        rounds: case.rounds,
        every: case.every,
        scale: case.scale,
    }
}

/// The engine of a game.
pub(crate) fn engine_of(alloc: Global, game: Game) -> Result<Engine, Fail> {
    let engine = open(alloc, &game);
    drop(game);
    engine
}

fn assert_sums(rt: &impl Abort, engine: &Engine, case: &WorkedRounds) {
    match engine.sums() {
        Some(sums) => {
            assert!(rt; sums.0.weights() == case.one && sums.1.weights() == case.two);
        }
        None => assert!(rt; false, "no sums"),
    }
}

fn assert_trace(rt: &impl Abort, engine: &Engine, lines: &[Line]) {
    match engine.outcome() {
        Some(outcome) => assert_lines(rt, outcome.trace(), lines),
        None => assert!(rt; false, "no outcome"),
    }
}

pub(crate) fn assert_lines(rt: &impl Abort, trace: &[TraceRow], lines: &[Line]) {
    assert!(rt; trace.len() == lines.len());
    for (shown, line) in trace.iter().zip(lines) {
        assert!(rt; is_same_line(shown, &row(*line)));
    }
}

fn row(line: Line) -> TraceRow {
    TraceRow {
        round: line.0,
        low_round: line.1,
        low: line.2,
        high_round: line.3,
        high: line.4,
    }
}

/// Runs a case on an engine that may have run before.
pub(crate) fn play<R: Abort + Threads + Wait + Sync>(
    rt: &R,
    alloc: Global,
    engine: &mut Engine,
    case: &WorkedRounds,
) -> Result<(), Fail>
    requires { IsSync R.row }
{
    run(rt, alloc, engine, settings_of(rt, case), &PlainRows)?;
    assert_sums(rt, engine, case);
    assert_trace(rt, engine, case.trace);
    Ok(())
}

fn play_each<R: Abort + Threads + Wait + Sync>(
    rt: &R,
    alloc: Global,
    engine: &mut Engine,
    cases: &[WorkedRounds],
) -> Result<(), Fail>
    requires { IsSync R.row }
{
    assert!(rt; engine.sums().is_none());
    for case in cases {
        play(rt, alloc, engine, case)?;
    }
    Ok(())
}

/// Runs one case after the other on one engine.
fn play_all<R: Abort + Threads + Wait + Sync>(
    rt: &R,
    alloc: Global,
    file: &str,
    cases: &[WorkedRounds],
) -> Result<(), Fail>
    requires { IsSync R.row }
{
    let mut engine = engine_of(alloc, read(rt, alloc, file)?)?;
    let played = play_each(rt, alloc, &mut engine, cases);
    drop(engine);
    played
}

#[test]
fn rounds_of_one_mover(rt: HostRuntime) -> Result<(), Fail> {
    play_all(&rt, rt.alloc(), ONE_MOVER, ROUNDS_OF_ONE_MOVER)
}

#[test]
fn rounds_of_pennies(rt: HostRuntime) -> Result<(), Fail> {
    play_all(&rt, rt.alloc(), PENNIES, ROUNDS_OF_PENNIES)
}

#[test]
fn rounds_of_a_hidden_game(rt: HostRuntime) -> Result<(), Fail> {
    play_all(&rt, rt.alloc(), TWICE_HIDDEN, ROUNDS_OF_TWICE_HIDDEN)
}

#[test]
fn rounds_at_the_end_of_64_bits(rt: HostRuntime) -> Result<(), Fail> {
    play_all(&rt, rt.alloc(), HEAVY_PENNIES, ROUNDS_OF_HEAVY_PENNIES)
}

fn assert_poker(rt: &impl Abort, alloc: Global, cards: u32) -> Result<(), Fail> {
    assert!(rt; 2 <= cards && cards <= 64);
    let engine = engine_of(alloc, one_card_poker(alloc, cards)?)?;
    let leaves = engine.form().leaf_count();
    drop(engine);
    assert!(rt; leaves == 5 * cards * (cards - 1), "of {cards} cards");
    Ok(())
}

#[test]
fn poker_has_no_fault(rt: HostRuntime) -> Result<(), Fail> {
    for cards in 2..65 {
        assert_poker(&rt, rt.alloc(), cards)?;
    }
    Ok(())
}

fn crosses_threads<T: Send + Sync>() {}

#[test]
fn engines_cross_threads() {
    crosses_threads::<Engine>();
    crosses_threads::<Settings>();
}
