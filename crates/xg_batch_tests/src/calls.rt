//! What the tests call, each in one place.
ghost use Rattle.std.specs.Prelude.{All, IsTrue};
ghost use Rattle.def_file.specs.Reading.{most_bytes};
ghost use Rattle.xg_batch.specs.Items.{HasAtMost};

use std::alloc::{AllocError, Global};
use std::marker::Sync;
use std::process::Abort;
use std::sync::Wait;
use std::thread::Threads;
use xg_batch::{Entry, FileBytes, Item, solve_all};
use xg_engine::Settings;
use xg_io::Gate;
use xg_read::MOST_BYTES;

/// The entry of a file of this text, or of one that is too long.
fn entry_of(alloc: Global, file: Option<&str>) -> Result<Entry, AllocError> {
    match file {
        Some(text) => {
            let bytes = Vec::from_slice(alloc, text.as_bytes())?;
            Ok(Entry::Bytes(FileBytes::of(bytes)))
        }
        None => Ok(Entry::TooLong),
    }
}

/// The entries of these files.
pub fn entries_of(alloc: Global, files: &[Option<&str>]) -> Result<Vec<Entry>, AllocError> {
    let mut entries = Vec::new(alloc);
    for file in files {
        let entry = entry_of(alloc, *file)?;
        entries.push(entry)?;
    }
    Ok(entries)
}

fn is_short(entry: &Entry) -> bool
    ensures { IsTrue result → HasAtMost most_bytes entry.now }
{
    match entry {
        Entry::Bytes(file) => file.bytes().len() <= MOST_BYTES,
        Entry::TooLong => true,
    }
}

fn are_short(entries: &[Entry]) -> bool
    ensures { IsTrue result → All (HasAtMost most_bytes) entries.now }
{
    entries.iter().all(|entry| is_short(entry))
}

/// The items of these files after two rounds.
pub fn solve<Rt: Abort + Threads + Wait + Sync, G: Gate>(
    rt: &Rt,
    alloc: Global,
    entries: &[Entry],
    workers: u32,
    gate: &G,
) -> Result<Vec<Item>, AllocError> {
    let is_some = !entries.is_empty() && 1 <= workers;
    let is_few = entries.len() <= 16 && workers <= 64;
    let are_files_short = are_short(entries);
    assert!(rt; is_some && is_few && are_files_short);
    let settings = Settings {
        rounds: 2,
        every: 1,
        scale: 1_048_576,
    };
    solve_all(rt, alloc, entries, settings, workers, gate)
}
