//! The top call.
ghost use Rattle.std.specs.Prelude.{◌≡◌, ◌≤◌, [], All, IfOk, OnOk, length, vec_capacity};
ghost use Rattle.def_sums.specs.Limits.{most_workers};
ghost use Rattle.def_file.specs.Reading.{most_bytes};
ghost use Rattle.def_command.specs.Table.{most_files};
ghost use Rattle.xg_engine.specs.State.{AreWithinLimits};
ghost use Rattle.xg_batch.specs.Items.{AreItemsOf, HasAtMost};
ghost use Rattle.xg_batch.specs.Shares.{CanBeSolved};

use crate::crew::{gather, new_crew, work_all};
use crate::entry::Entry;
use crate::item::Item;
use crate::worker::Batch;
use std::alloc::{AllocError, Global};
use std::sync::Wait;
use std::thread::Threads;
use xg_engine::Settings;
use xg_io::Gate;

/// Solves all files, at most so many of them at once: file `i`, counted from 0, is solved by worker `i mod workers`.
///
/// A worker passes the gate with its number and the file's before it reads the file's bytes; not where the file is too
/// long. Where a thread can't be started the caller does its work. The rounds of each file are played by one worker.
#[tactic(auto, using(crate::proofs::GatheredItems::items_count))]
pub fn solve_all<Rt: Threads + Wait + Sync, G: Gate>(
    rt: &Rt,
    alloc: Global,
    entries: &[Entry],
    settings: Settings,
    workers: u32,
    gate: &G,
) -> Result<Vec<Item>, AllocError>
    requires workers { (1 ≤ workers) × (workers ≤ most_workers) }
    requires files { (1 ≤ length entries.now) × (length entries.now ≤ most_files) }
    requires lengths { All (HasAtMost most_bytes) entries.now }
    requires limits { AreWithinLimits settings }
    ensures count { IfOk result (λ items. length items.items ≡ length entries.now) }
    ensures each { IfOk result (λ items. AreItemsOf settings entries.now items.items) }
{
    let count = entries.len().min(workers as usize);
    let batch = Batch {
        entries,
        settings,
        workers: count,
    };
    let mut items = Vec::with_capacity(alloc, entries.len())?;
    match solve_into(rt, alloc, &batch, gate, &mut items) {
        Ok(()) => Ok(items),
        Err(error) => {
            drop(items);
            Err(error)
        }
    }
}

/// Solves all files into the items.
fn solve_into<Rt: Threads + Wait + Sync, G: Gate>(
    rt: &Rt,
    alloc: Global,
    batch: &Batch<'_>,
    gate: &G,
    items: &mut Vec<Item>,
) -> Result<(), AllocError>
    requires batch { CanBeSolved batch.now }
    requires none { items.old.items ≡ [] }
    requires room { length batch.now.entries.now ≤ vec_capacity items.old }
    ensures { OnOk result (AreItemsOf batch.now.settings batch.now.entries.now items.new.items) }
{
    let mut crew = new_crew(alloc, batch.workers)?;
    work_all(rt, alloc, batch, &mut crew, gate);
    let gathered = gather(batch, &mut crew, items);
    drop(crew);
    gathered
}
