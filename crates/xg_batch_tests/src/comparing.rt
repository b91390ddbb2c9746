//! Items beside those of files that are solved alone.
use crate::calls::solve;
use std::alloc::{AllocError, Global};
use std::marker::Sync;
use std::process::Abort;
use std::sync::Wait;
use std::thread::Threads;
use xg_batch::{Entry, Item};
use xg_engine::Engine;
use xg_io::{Gate, OpenGate};
use xg_test_data::is_same_fault;

/// Whether a game has these sums of plans.
pub fn has_sums(engine: &Engine, one: &[u64], two: &[u64]) -> bool {
    match engine.sums() {
        Some((first, second)) => first.weights() == one && second.weights() == two,
        None => false,
    }
}

/// Whether both games have the same sums of plans.
fn are_engines_same(engine: &Engine, alone: &Engine) -> bool {
    match alone.sums() {
        Some((one, two)) => has_sums(engine, one.weights(), two.weights()),
        None => false,
    }
}

fn are_same(item: &Item, alone: &Item) -> bool {
    match item {
        Item::Solved(engine) => match alone {
            Item::Solved(other) => are_engines_same(engine, other),
            Item::Refused(_) => false,
        },
        Item::Refused(fault) => match alone {
            Item::Solved(_) => false,
            Item::Refused(other) => is_same_fault(*fault, *other),
        },
    }
}

/// Whether a file's item is the one that it has alone.
fn is_as_alone<Rt: Abort + Threads + Wait + Sync>(
    rt: &Rt,
    alloc: Global,
    entries: &[Entry],
    items: &[Item],
    file: usize,
) -> Result<bool, AllocError> {
    if entries.len() <= file || items.len() != entries.len() {
        return Ok(false);
    }
    let alone = solve(rt, alloc, &entries[file..file + 1], 1, &OpenGate)?;
    let is_same = alone.len() == 1 && are_same(&items[file], &alone[0]);
    drop(alone);
    Ok(is_same)
}

fn are_all_as_alone<Rt: Abort + Threads + Wait + Sync>(
    rt: &Rt,
    alloc: Global,
    entries: &[Entry],
    items: &[Item],
) -> Result<bool, AllocError> {
    for file in 0..entries.len() {
        if !is_as_alone(rt, alloc, entries, items, file)? {
            return Ok(false);
        }
    }
    Ok(true)
}

/// Whether so many workers give each file the item that it has alone.
pub fn are_solved_as_alone<Rt: Abort + Threads + Wait + Sync, G: Gate>(
    rt: &Rt,
    alloc: Global,
    entries: &[Entry],
    workers: u32,
    gate: &G,
) -> Result<bool, AllocError> {
    let items = solve(rt, alloc, entries, workers, gate)?;
    let are_same = are_all_as_alone(rt, alloc, entries, &items);
    drop(items);
    are_same
}
