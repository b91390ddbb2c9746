//! Solving several files and writing what becomes of each.
ghost use Rattle.std.specs.Prelude.{◌≤◌, All, length, map};
ghost use Rattle.def_sums.specs.Limits.{most_workers};
ghost use Rattle.xg_io.specs.Calls.{sink_call};
ghost use Rattle.def_file.specs.Reading.{most_bytes};
ghost use Rattle.def_batch.specs.Batch.{item_of};
ghost use Rattle.def_command.specs.Table.{most_files};
ghost use Rattle.def_program.specs.BatchText.{parts_text};
ghost use Rattle.xg_engine.specs.State.{AreWithinLimits};
ghost use Rattle.xg_batch.specs.Items.{HasAtMost, batch_entry_seen};
ghost use Rattle.xg_batch.specs.Texts.{CanBeShown, items_shown};
ghost use Rattle.xg_load.specs.Endings.{Tells};

use crate::batch::solve_all;
use crate::batch_text::{BatchText, parts_of};
use crate::entry::Entry;
use crate::item::Item;
use std::alloc::Global;
use std::marker::Sync;
use std::sync::Wait;
use std::thread::Threads;
use xg_engine::Settings;
use xg_io::{Gate, Sink, write_paged};
use xg_load::Ending;

/// Solves the games of files that were read, and writes what becomes of each.
pub fn write_batch<Rt: Threads + Wait + Sync, O: Sink, G: Gate>(
    rt: &Rt,
    alloc: Global,
    entries: &[Entry],
    settings: Settings,
    workers: u32,
    out: &mut O,
    gate: &G,
) -> Ending
    requires files { (1 ≤ length entries.now) × (length entries.now ≤ most_files) }
    requires lengths { All (HasAtMost most_bytes) entries.now }
    requires limits { AreWithinLimits settings }
    requires workers { (1 ≤ workers) × (workers ≤ most_workers) }
    ensures { Tells (parts_text settings 1 (map item_of (map batch_entry_seen entries.now)))
        (sink_call O.Sink out.old out.new) result }
{
    let Ok(items) = solve_all(rt, alloc, entries, settings, workers, gate) else {
        return Ending::NoMemory;
    };
    let ending = write_items(alloc, &items, out);
    drop(items);
    ending
}

/// Writes what became of the files.
fn write_items<O: Sink>(alloc: Global, items: &[Item], out: &mut O) -> Ending
    requires { All CanBeShown items.now }
    ensures { Tells (items_shown 1 items.now) (sink_call O.Sink out.old out.new) result }
{
    let Ok(parts) = parts_of(alloc, items) else {
        return Ending::NoMemory;
    };
    let written = write_paged(out, &BatchText { parts: &parts });
    drop(parts);
    Ending::of_written(written)
}
