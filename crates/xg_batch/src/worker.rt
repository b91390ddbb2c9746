//! A worker of a batch: it solves its files, one after the other, and keeps their items.
ghost use Rattle.std.specs.Prelude.{◌≡◌, ◌≤◌, ◌<◌, ◌+◌, ◌%◌, ◌^◌, IfOk, OnOk, Some, None, [], ◌∷◌, ◌++◌, length};
ghost use Rattle.std.specs.Prelude.{vec_len};
ghost use Rattle.std.specs.Thread.{IsSync};
ghost use Rattle.def_file.specs.Reading.{most_bytes};
ghost use Rattle.def_batch.specs.Batch.{Kept};
ghost use Rattle.xg_engine.specs.State.{AreWithinLimits};
ghost use Rattle.xg_batch.specs.Items.{IsItemOf};
ghost use Rattle.xg_batch.specs.Shares.{CanBeSolved, HasShare, HoldsShare, IsItemAt};

use crate::entry::Entry;
use crate::item::Item;
use crate::solving::solve_bytes;
use std::alloc::{AllocError, Global};
use std::sync::Wait;
use std::thread::Threads;
use xg_engine::Settings;
use xg_io::Gate;
use xg_read::FileFault;

/// What all workers are given: the files, what is asked, and how many workers there are.
#[derive(Drop)]
pub(crate) struct Batch<'a> {
    pub(crate) entries: &'a [Entry],
    pub(crate) settings: Settings,
    pub(crate) workers: usize,
}

/// A worker.
#[derive(Drop)]
pub(crate) struct Worker {
    /// The items of its files so far, in order.
    pub(crate) items: Vec<Item>,
    /// Whether memory ran out.
    pub(crate) wants_memory: bool,
    // The file that the gate let it on to.
    let_on_to: Option<usize>,
}

impl Worker {
    /// A worker that has solved no file.
    pub(crate) fn new(alloc: Global) -> Worker
        ensures { result.items.items ≡ [] }
    {
        Worker {
            items: Vec::new(alloc),
            wants_memory: false,
            let_on_to: None,
        }
    }

    /// Takes the last item.
    pub(crate) fn take_last(&mut self) -> Item
        requires { 0 < vec_len self.old.items }
        ensures { self.old.items.items ≡ self.new.items.items ++ result ∷ [] }
    {
        match self.items.pop() {
            Some(item) => item,
            None => unreachable!(),
        }
    }

    /// Solves the files that are this worker's by its number, or stops where memory runs out.
    #[tactic(auto, using(crate::proofs::ItemsInOrder::holds_same, crate::proofs::ItemsInOrder::holds_same_by_test))]
    pub(crate) fn work<Rt: Threads + Wait + Sync, G: Gate>(
        &mut self,
        rt: &Rt,
        alloc: Global,
        batch: &Batch<'_>,
        number: usize,
        gate: &G,
    )
        requires sync { IsSync Rt.row }
        requires batch { CanBeSolved batch.now }
        requires number { number < batch.now.workers }
        requires fresh { self.old.items.items ≡ [] }
        ensures { HasShare batch.now number self.new }
    {
        for file in 0..batch.entries.len() {
            if file % batch.workers == number {
                let added = self.add(rt, alloc, batch, number, file, gate);
                if added.is_err() {
                    self.wants_memory = true;
                    return;
                }
            }
        }
    }

    /// Adds the item of a file.
    fn add<Rt: Threads + Wait + Sync, G: Gate>(
        &mut self,
        rt: &Rt,
        alloc: Global,
        batch: &Batch<'_>,
        number: usize,
        file: usize,
        gate: &G,
    ) -> Result<(), AllocError>
        requires sync { IsSync Rt.row }
        requires batch { CanBeSolved batch.now }
        requires number { number < batch.now.workers }
        requires file { (file < length batch.now.entries.now) × (file % batch.now.workers ≡ number) }
        requires share { HoldsShare batch.now number file self.old.items.items }
        ensures share { OnOk result (HoldsShare batch.now number (file + 1) self.new.items.items) }
    {
        self.items.reserve(1)?;
        let item = self.solve(rt, alloc, batch, number, file, gate)?;
        self.items.push_reserved(item);
        Ok(())
    }

    /// Solves a file, once the gate lets this worker on to it. A file that is too long isn't read.
    fn solve<Rt: Threads + Wait + Sync, G: Gate>(
        &mut self,
        rt: &Rt,
        alloc: Global,
        batch: &Batch<'_>,
        number: usize,
        file: usize,
        gate: &G,
    ) -> Result<Item, AllocError>
        requires sync { IsSync Rt.row }
        requires batch { CanBeSolved batch.now }
        requires number { number < batch.now.workers }
        requires file { file < length batch.now.entries.now }
        ensures item { IfOk result (IsItemAt batch.now.settings batch.now.entries.now file) }
        ensures items { self.new.items ≡ self.old.items }
    {
        match &batch.entries[file] {
            Entry::TooLong => Ok(Item::Refused(FileFault::TooLong)),
            Entry::Bytes(bytes) => {
                self.pass(rt, number, file, gate);
                self.solve_file(rt, alloc, file, bytes.bytes(), batch.settings)
            }
        }
    }

    /// Passes the gate before a file.
    fn pass<Rt: Threads + Wait + Sync, G: Gate>(
        &mut self,
        rt: &Rt,
        number: usize,
        file: usize,
        gate: &G,
    )
        requires number { number < 2 ^ 32 }
        requires file { file < 2 ^ 32 }
        ensures let_on { self.new.let_on_to ≡ Some file }
        ensures items { self.new.items ≡ self.old.items }
    {
        gate.pass(rt, number as u32, file as u32);
        self.let_on_to = Some(file);
    }

    /// The item of a file of these bytes, which the gate let this worker on to.
    fn solve_file<Rt: Threads + Wait + Sync>(
        &self,
        rt: &Rt,
        alloc: Global,
        file: usize,
        bytes: &[u8],
        settings: Settings,
    ) -> Result<Item, AllocError>
        requires sync { IsSync Rt.row }
        requires let_on { self.now.let_on_to ≡ Some file }
        requires length { length bytes.now ≤ most_bytes }
        requires limits { AreWithinLimits settings }
        ensures { IfOk result (IsItemOf settings (Kept bytes.now)) }
    {
        solve_bytes(rt, alloc, bytes, settings)
    }
}
