//! Workers: that they run side by side, and that the bytes are the same for all numbers of them.
use crate::calls::{files_with, words_of};
use std::marker::Sync;
use std::process::Abort;
use std::sync::Wait;
use std::test::Fail;
use std::thread::Threads;
use xg_io::{Gate, OpenGate};
use xg_memory::MemSink;
use xg_run::run;
use xg_test_data::files::{ONE_MOVER, TWO_JOBS};
use xg_test_data::{Delays, HeldPass, HeldStripe, Meeting, StripeCount, certificates};

const SOLVE: &str = "solve game --rounds 1";

const PLUS: &str = "plus game --rounds 2";

const DRILL: &str = "drill 3 --rounds 1";

const NINE_CARDS: &str = "drill 9 --rounds 1";

const BATCH: &str = "batch game game --rounds 1";

/// Calls of which the rows are atomic words.
const ATOMIC: [&str; 4] = [
    "solve game --rounds 1 --atomic 1",
    "plus game --rounds 2 --atomic 1",
    "drill 3 --rounds 1 --atomic 1",
    "drill 4 --rounds 1 --atomic 1",
];

const ONE_MOVER_BY_PLUS: &str = r#"XGPLUS 1
nodes 3 leaves 2
sets 1 0
sequences 3 1
unit 1
mass 1
sum 0
rounds 2 every 1 scale 16
trace 1 1 8 1 16
trace 2 2 40 1 16
plan 1 48
weights 1 40 8
reply 2 40
plan 2 16
reply 1 16
value 1 16 1
bracket 5/6 1
second -1 -5/6
end
"#;

const ALONE: &str = "--workers 1";

const BY_TWO: &str = "--workers 2";

const BY_THREE: &str = "--workers 3";

/// What is written for these words, with so many workers, at this gate.
fn written<Rt: Abort + Threads + Wait + Sync + AllocGlobal, G: Gate>(
    rt: &Rt,
    words: &str,
    workers: &str,
    game: &str,
    gate: &G,
) -> Result<MemSink, Fail> {
    let alloc = rt.alloc();
    let words = words_of(alloc, &[words, workers])?;
    let mut files = files_with(alloc, "game", game, 1_000)?;
    let mut out = MemSink::new(alloc, 100_000, &[])?;
    let mut err = MemSink::new(alloc, 1_000, &[])?;
    let status = run(rt, alloc, &words, &mut files, &mut out, &mut err, gate);
    assert!(rt; status == 0 && err.bytes().is_empty());
    Ok(out)
}

/// Whether this text is written for these words with each of some numbers of workers, and without one.
fn is_written_by_all<Rt: Abort + Threads + Wait + Sync + AllocGlobal>(
    rt: &Rt,
    words: &str,
    text: &str,
) -> Result<bool, Fail> {
    for workers in [ALONE, BY_TWO, BY_THREE, "--workers 7", "--workers 64", ""] {
        let out = written(rt, words, workers, ONE_MOVER, &OpenGate)?;
        if out.bytes() != text.as_bytes() {
            return Ok(false);
        }
    }
    Ok(true)
}

#[test]
fn texts_of_any_number_of_workers(rt: HostRuntime) -> Result<(), Fail> {
    let is_solved = is_written_by_all(
        &rt,
        "solve game --rounds 2 --every 1",
        certificates::ONE_MOVER_IN_TWO,
    )?;
    let is_played = is_written_by_all(
        &rt,
        "plus game --rounds 2 --every 1 --scale 16",
        ONE_MOVER_BY_PLUS,
    )?;
    let is_drilled = is_written_by_all(&rt, DRILL, certificates::POKER_OF_THREE_IN_TWO)?;
    let is_atomic = is_written_by_all(&rt, ATOMIC[2], certificates::POKER_OF_THREE_IN_TWO)?;
    assert!(rt; is_solved && is_played && is_drilled && is_atomic);
    Ok(())
}

/// Whether the other worker passes while one is held, and the text stays that of one alone.
fn passes<Rt: Abort + Threads + Wait + Sync + AllocGlobal>(
    rt: &Rt,
    words: &str,
    held: u32,
    other: u32,
) -> Result<bool, Fail> {
    let alone = written(rt, words, ALONE, TWO_JOBS, &OpenGate)?;
    let gate = HeldPass::new(held, other);
    let out = written(rt, words, BY_TWO, TWO_JOBS, &gate)?;
    Ok(gate.was_met() && out.bytes() == alone.bytes())
}

#[test]
fn a_worker_passes_while_another_is_held(rt: HostRuntime) -> Result<(), Fail> {
    for words in [SOLVE, PLUS, DRILL, BATCH, ATOMIC[0], ATOMIC[2]] {
        let is_one_passed = passes(&rt, words, 0, 1)?;
        let is_other_passed = passes(&rt, words, 1, 0)?;
        assert!(rt; is_one_passed && is_other_passed);
    }
    Ok(())
}

/// Whether one worker adds to a stripe while the other is within another one, and the text stays that of one alone.
fn adds<Rt: Abort + Threads + Wait + Sync + AllocGlobal>(
    rt: &Rt,
    words: &str,
) -> Result<bool, Fail> {
    let alone = written(rt, words, ALONE, TWO_JOBS, &OpenGate)?;
    let gate = HeldStripe::new();
    let out = written(rt, words, BY_TWO, TWO_JOBS, &gate)?;
    Ok(gate.was_met() && out.bytes() == alone.bytes())
}

#[test]
fn a_worker_adds_while_another_is_within_a_stripe(rt: HostRuntime) -> Result<(), Fail> {
    let does_solve = adds(&rt, SOLVE)?;
    let does_play = adds(&rt, PLUS)?;
    let does_drill = adds(&rt, DRILL)?;
    assert!(rt; does_solve && does_play && does_drill);
    Ok(())
}

/// How often workers are within a stripe.
fn times_within<Rt: Abort + Threads + Wait + Sync + AllocGlobal>(
    rt: &Rt,
    words: &str,
    workers: &str,
) -> Result<u64, Fail> {
    let gate = StripeCount::new();
    written(rt, words, workers, TWO_JOBS, &gate)?;
    Ok(gate.count())
}

#[test]
fn stripes_are_for_several_workers(rt: HostRuntime) -> Result<(), Fail> {
    for words in [SOLVE, PLUS, DRILL] {
        let alone = times_within(&rt, words, ALONE)?;
        let by_three = times_within(&rt, words, BY_THREE)?;
        assert!(rt; alone == 0 && by_three >= 1);
    }
    Ok(())
}

#[test]
fn atomic_words_have_no_stripes(rt: HostRuntime) -> Result<(), Fail> {
    for words in ATOMIC {
        let alone = times_within(&rt, words, ALONE)?;
        let by_two = times_within(&rt, words, BY_TWO)?;
        let by_many = times_within(&rt, words, "--workers 64")?;
        assert!(rt; alone == 0 && by_two == 0 && by_many == 0);
    }
    Ok(())
}

/// Whether all workers are there at once, and the text is this one. `drill 9` has 72 jobs.
fn meet<Rt: Abort + Threads + Wait + Sync + AllocGlobal>(
    rt: &Rt,
    workers: &str,
    others: u64,
    alone: &MemSink,
) -> Result<bool, Fail> {
    let gate = Meeting::new(others);
    let out = written(rt, NINE_CARDS, workers, TWO_JOBS, &gate)?;
    Ok(gate.was_met() && out.bytes() == alone.bytes())
}

#[test]
fn workers_are_all_there_at_once(rt: HostRuntime) -> Result<(), Fail> {
    let alone = written(&rt, NINE_CARDS, ALONE, TWO_JOBS, &OpenGate)?;
    for (workers, others) in [
        (BY_TWO, 1),
        ("--workers 4", 3),
        ("--workers 7", 6),
        ("--workers 64", 63),
    ] {
        let is_met = meet(&rt, workers, others, &alone)?;
        assert!(rt; is_met);
    }
    Ok(())
}

/// Whether the text stays this one, however the workers are delayed.
fn is_same_when_delayed<Rt: Abort + Threads + Wait + Sync + AllocGlobal>(
    rt: &Rt,
    words: &str,
    workers: &str,
    alone: &MemSink,
    seeds: u64,
) -> Result<bool, Fail> {
    for seed in 0..seeds {
        let gate = Delays::new(seed);
        let out = written(rt, words, workers, TWO_JOBS, &gate)?;
        if out.bytes() != alone.bytes() {
            return Ok(false);
        }
    }
    Ok(true)
}

/// Whether the text is the same for several numbers of workers, however they are delayed.
fn is_same_for_all_numbers<Rt: Abort + Threads + Wait + Sync + AllocGlobal>(
    rt: &Rt,
    words: &str,
    seeds: u64,
) -> Result<bool, Fail> {
    let alone = written(rt, words, ALONE, TWO_JOBS, &OpenGate)?;
    for workers in [
        BY_TWO,
        BY_THREE,
        "--workers 4",
        "--workers 7",
        "--workers 64",
    ] {
        if !is_same_when_delayed(rt, words, workers, &alone, seeds)? {
            return Ok(false);
        }
    }
    Ok(true)
}

// `.ci/delays` runs this one over and over.
#[test]
fn texts_of_delayed_workers(rt: HostRuntime) -> Result<(), Fail> {
    for words in [SOLVE, PLUS, DRILL, "drill 4 --rounds 1"] {
        let is_same = is_same_for_all_numbers(&rt, words, 20)?;
        assert!(rt; is_same);
    }
    Ok(())
}

// 1,000 runs.
#[test]
fn texts_of_delayed_workers_without_locks(rt: HostRuntime) -> Result<(), Fail> {
    for words in ATOMIC {
        let is_same = is_same_for_all_numbers(&rt, words, 50)?;
        assert!(rt; is_same);
    }
    Ok(())
}
