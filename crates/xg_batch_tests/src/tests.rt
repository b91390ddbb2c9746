//! Files that are solved side by side.
use crate::calls::{entries_of, solve};
use crate::comparing::{are_solved_as_alone, has_sums};
use crate::counting::CountedPasses;
use std::alloc::AllocError;
use std::marker::Sync;
use std::process::Abort;
use std::sync::Wait;
use std::test::Fail;
use std::thread::Threads;
use xg_batch::Item;
use xg_io::OpenGate;
use xg_read::FileFault;
use xg_test_data::files::{ONE_LEAF, ONE_MOVER, PENNIES, TWICE_HIDDEN, TWO_JOBS};
use xg_test_data::{HeldPass, Meeting, is_same_fault};

/// Player one forgets at node 3 that they went on.
const FORGETFUL: &str = r#"EFG 2 R "Absent" { "A" "B" }
p "" 1 1 "" { "exit" "on" } 0
t "" 0
p "" 1 1 0
t "" 1 { 4, -4 }
t "" 2 { 1, -1 }
"#;

/// Games, with files between them that are refused or too long.
static MIXED: [Option<&str>; 16] = [
    Some(ONE_MOVER),
    Some(""),
    Some(PENNIES),
    None,
    Some(TWO_JOBS),
    Some(FORGETFUL),
    Some(TWICE_HIDDEN),
    Some(ONE_LEAF),
    None,
    Some(PENNIES),
    Some("EFG 3"),
    Some(ONE_MOVER),
    Some(TWICE_HIDDEN),
    Some(FORGETFUL),
    Some(ONE_MOVER),
    Some(TWO_JOBS),
];

/// How many of them are not too long.
const MIXED_PASSES: u64 = 14;

static COPIES: [Option<&str>; 2] = [Some(TWO_JOBS), Some(TWO_JOBS)];

/// Whether so many workers give the mixed files their items, and each worker passes before its own files.
fn is_mixed_solved<Rt: Abort + Threads + Wait + Sync + AllocGlobal>(
    rt: &Rt,
    workers: u32,
) -> Result<bool, AllocError> {
    let alloc = rt.alloc();
    let entries = entries_of(alloc, &MIXED)?;
    let gate = CountedPasses::new(workers.min(16));
    let is_solved = are_solved_as_alone(rt, alloc, &entries, workers, &gate)?;
    Ok(is_solved && gate.were(MIXED_PASSES))
}

#[test]
fn items_are_those_of_the_files_alone(rt: HostRuntime) -> Result<(), Fail> {
    for workers in [1, 2, 3, 16, 64] {
        let is_solved = is_mixed_solved(&rt, workers)?;
        assert!(rt; is_solved);
    }
    Ok(())
}

fn is_refused(item: &Item, fault: FileFault) -> bool {
    match item {
        Item::Refused(other) => is_same_fault(*other, fault),
        Item::Solved(_) => false,
    }
}

/// Whether these are the items of a file with one mover, one that is too long and one that is empty.
fn are_known(items: &[Item]) -> bool {
    if items.len() != 3 {
        return false;
    }
    let is_solved = match &items[0] {
        Item::Solved(engine) => has_sums(engine, &[2_097_152, 1_572_864, 524_288], &[2_097_152]),
        Item::Refused(_) => false,
    };
    is_solved
        && is_refused(&items[1], FileFault::TooLong)
        && is_refused(&items[2], FileFault::UnexpectedEnd)
}

#[test]
fn items_are_known(rt: HostRuntime) -> Result<(), Fail> {
    let alloc = rt.alloc();
    let entries = entries_of(alloc, &[Some(ONE_MOVER), None, Some("")])?;
    let items = solve(&rt, alloc, &entries, 2, &OpenGate)?;
    let is_right = are_known(&items);
    drop(items);
    assert!(rt; is_right);
    Ok(())
}

/// Whether a worker passes before its file while the other one is held before its own, and both items stay.
fn passes<Rt: Abort + Threads + Wait + Sync + AllocGlobal>(
    rt: &Rt,
    held: u32,
    other: u32,
) -> Result<bool, AllocError> {
    let alloc = rt.alloc();
    let entries = entries_of(alloc, &COPIES)?;
    let gate = HeldPass::new(held, other);
    let is_solved = are_solved_as_alone(rt, alloc, &entries, 2, &gate)?;
    Ok(is_solved && gate.was_met())
}

#[test]
fn a_file_is_solved_while_another_is_held(rt: HostRuntime) -> Result<(), Fail> {
    let is_one_passed = passes(&rt, 0, 1)?;
    let is_other_passed = passes(&rt, 1, 0)?;
    assert!(rt; is_one_passed && is_other_passed);
    Ok(())
}

#[test]
fn files_are_all_solved_at_once(rt: HostRuntime) -> Result<(), Fail> {
    let alloc = rt.alloc();
    let entries = entries_of(alloc, &[Some(PENNIES); 16])?;
    let gate = Meeting::new(15);
    let is_solved = are_solved_as_alone(&rt, alloc, &entries, 64, &gate)?;
    assert!(rt; is_solved && gate.was_met());
    Ok(())
}
