//! Solving the games of several files side by side.
ghost use Rattle.std.specs.Prelude.{◌≡◌, ◌+◌, ◌≤◌, All, IfOk, IfSome, IsTrue, length, map};
ghost use Rattle.def_sums.specs.Limits.{most_workers};
ghost use Rattle.def_outside.specs.Calls.{OpensAtMost};
ghost use Rattle.xg_io.specs.Calls.{files_call, sink_call};
ghost use Rattle.def_file.specs.Reading.{most_bytes};
ghost use Rattle.def_batch.specs.Batch.{batch_entry, batch_room, entry_bytes};
ghost use Rattle.def_command.specs.Table.{most_files};
ghost use Rattle.def_program.specs.Meaning.{AllMean};
ghost use Rattle.xg_engine.specs.State.{AreWithinLimits};
ghost use Rattle.xg_batch.specs.Items.{HasAtMost, batch_entry_seen};
ghost use Rattle.xg_run.specs.Batches.{BatchHasCause, HaveContents};
ghost use Rattle.xg_run.specs.Concludes.{Concludes};

use crate::ending::Ending;
use def_batch::BATCH_ROOM;
use std::alloc::Global;
use std::marker::Sync;
use std::sync::Wait;
use std::thread::Threads;
use xg_batch::{Entry, FileBytes, write_batch};
use xg_engine::Settings;
use xg_io::{Files, Gate, ReadAllFault, Sink, read_all};

/// Solves the games of several files side by side, and writes their texts in the order of the names.
///
/// All files are read, one after the other, before the first one is solved. A file that is refused ends nothing: its
/// line stands in its place of the text.
pub fn batch<Rt: Threads + Wait + Sync, F: Files, O: Sink, G: Gate>(
    rt: &Rt,
    alloc: Global,
    names: &[&str],
    settings: Settings,
    workers: u32,
    files: &mut F,
    out: &mut O,
    gate: &G,
) -> Ending
    requires names { (1 ≤ length names.now) × (length names.now ≤ most_files) }
    requires may_open { All (λ name. IsTrue (F.may_open files.old name.now)) names.now }
    requires limits { AreWithinLimits settings }
    requires workers { (1 ≤ workers) × (workers ≤ most_workers) }
    ensures concludes { Concludes ⊥
        (AllMean settings (map (λ name. F.told files.old name.now) names.now))
        (files_call F.Files files.old files.new) (sink_call O.Sink out.old out.new) result }
    ensures opens { OpensAtMost (files_call F.Files files.old files.new) (length names.now) }
{
    match read_entries(alloc, files, names) {
        Ok(entries) => {
            let ending = write_batch(rt, alloc, &entries, settings, workers, out, gate);
            drop(entries);
            ending
        }
        Err(ending) => ending,
    }
}

/// The entries of the files of these names, which are read one after the other, or the end of a run at the first that
/// can't be read.
fn read_entries<F: Files>(
    alloc: Global,
    files: &mut F,
    names: &[&str],
) -> Result<Vec<Entry>, Ending>
    requires { All (λ name. IsTrue (F.may_open files.old name.now)) names.now }
    ensures count { IfOk result (λ entries. length entries.items ≡ length names.now) }
    ensures exact { IfOk result (λ entries. HaveContents batch_room
        (map (λ name. F.told files.old name.now) names.now) (map batch_entry_seen entries.items)) }
    ensures within { IfOk result (λ entries. All (HasAtMost most_bytes) entries.items) }
    ensures opens { F.opens files.new ≤ F.opens files.old + length names.now }
    ensures cause { BatchHasCause (F.faults files.old) (F.faults files.new) result }
{
    let Ok(mut entries) = Vec::with_capacity(alloc, names.len()) else {
        return Err(Ending::NoMemory);
    };
    let mut room = BATCH_ROOM;
    'names: for i in 0..names.len() {
        let entry = read_entry(alloc, files, names[i], room)?;
        room -= kept_bytes(&entry);
        entries.push_reserved(entry);
    }
    Ok(entries)
}

/// The entry of the file of a name, where the files before it leave this room.
fn read_entry<F: Files>(
    alloc: Global,
    files: &mut F,
    name: &str,
    room: usize,
) -> Result<Entry, Ending>
    requires name { IsTrue (F.may_open files.old name.now) }
    requires room { room ≤ batch_room }
    ensures exact { IfOk result (λ entry. IfSome (F.told files.old name.now)
        (λ bytes. batch_entry room bytes ≡ batch_entry_seen entry)) }
    ensures within { IfOk result (λ entry. entry_bytes (batch_entry_seen entry) ≤ room) }
    ensures same_told { F.told files.new ≡ F.told files.old }
    ensures same_names { F.may_open files.new ≡ F.may_open files.old }
    ensures opens { F.opens files.new ≤ F.opens files.old + 1 }
    ensures cause { BatchHasCause (F.faults files.old) (F.faults files.new) result }
{
    match read_all(alloc, files, name, room) {
        Ok(bytes) => Ok(Entry::Bytes(FileBytes::of(bytes))),
        Err(ReadAllFault::TooLong) => Ok(Entry::TooLong),
        Err(ReadAllFault::ReadFault) => Err(Ending::ReadFault),
        Err(ReadAllFault::NoMemory) => Err(Ending::NoMemory),
    }
}

/// How many bytes are kept of a file.
fn kept_bytes(entry: &Entry) -> usize
    ensures { result ≡ entry_bytes (batch_entry_seen entry.now) }
{
    match entry {
        Entry::Bytes(file) => file.bytes().len(),
        Entry::TooLong => 0,
    }
}
