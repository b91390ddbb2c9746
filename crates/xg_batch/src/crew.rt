//! All workers of a batch.
ghost use Rattle.std.specs.Prelude.{◌≡◌, ◌≤◌, ◌<◌, ◌+◌, [], All, IfOk, OnOk, length, vec_capacity, vec_len, IsTrue};
ghost use Rattle.std.specs.Prelude.{false};
ghost use Rattle.std.specs.Thread.{IsSync};
ghost use Rattle.xg_batch.specs.Items.{AreItemsOf};
ghost use Rattle.xg_batch.specs.Shares.{CanBeSolved, HasItemsFrom, HasShare, HaveShares, HaveSharesBelow};

use crate::item::Item;
use crate::worker::{Batch, Worker};
use std::alloc::{AllocError, Global};
use std::sync::Wait;
use std::thread;
use std::thread::Threads;
use xg_io::Gate;

/// So many workers, who have solved no file.
pub(crate) fn new_crew(alloc: Global, count: usize) -> Result<Vec<Worker>, AllocError>
    ensures count { IfOk result (λ crew. vec_len crew ≡ count) }
    ensures fresh { IfOk result (λ crew. All (λ w. w.items.items ≡ []) crew.items) }
{
    let mut crew = Vec::with_capacity(alloc, count)?;
    for _ in 0..count {
        crew.push_reserved(Worker::new(alloc));
    }
    Ok(crew)
}

/// Lets all workers work, each in a thread.
pub(crate) fn work_all<Rt: Threads + Wait + Sync, G: Gate>(
    rt: &Rt,
    alloc: Global,
    batch: &Batch<'_>,
    crew: &mut Vec<Worker>,
    gate: &G,
)
    requires batch { CanBeSolved batch.now }
    requires crew { vec_len crew.old ≡ batch.now.workers }
    requires fresh { All (λ w. w.items.items ≡ []) crew.old.items }
    ensures shares { HaveShares batch.now crew.new.items }
    ensures count { vec_len crew.new ≡ batch.now.workers }
{
    thread::for_each_mut(
        rt,
        crew.as_mut_slice(),
        batch.workers,
        &|number, worker: &mut Worker|
            requires sync { IsSync Rt.row × IsSync G.row }
            requires batch { CanBeSolved batch.now }
            requires number { number < batch.now.workers }
            requires fresh { worker.old.items.items ≡ [] }
            ensures { HasShare batch.entry.now number worker.new }
        { worker.work(rt, alloc, batch, number, gate) },
    );
}

/// The items of all files in order, once all workers are done, unless one of them wants memory.
pub(crate) fn gather(
    batch: &Batch<'_>,
    crew: &mut Vec<Worker>,
    items: &mut Vec<Item>,
) -> Result<(), AllocError>
    requires workers { 1 ≤ batch.now.workers }
    requires crew { vec_len crew.old ≡ batch.now.workers }
    requires shares { HaveShares batch.now crew.old.items }
    requires none { items.old.items ≡ [] }
    requires room { length batch.now.entries.now ≤ vec_capacity items.old }
    ensures { OnOk result (AreItemsOf batch.now.settings batch.now.entries.now items.new.items) }
{
    for worker in crew.as_slice() {
        if worker.wants_memory {
            return Err(AllocError);
        }
    }
    gather_done(batch, crew, items);
    Ok(())
}

/// Takes the items from the last file on, since each worker's last item is that of its last file.
fn gather_done(batch: &Batch<'_>, crew: &mut Vec<Worker>, items: &mut Vec<Item>)
    requires workers { 1 ≤ batch.now.workers }
    requires crew { vec_len crew.old ≡ batch.now.workers }
    requires shares { HaveSharesBelow batch.now (length batch.now.entries.now) crew.old.items }
    requires none { items.old.items ≡ [] }
    requires room { length batch.now.entries.now ≤ vec_capacity items.old }
    ensures { AreItemsOf batch.now.settings batch.now.entries.now items.new.items }
{
    for file in (0..batch.entries.len()).rev() {
        move_last(batch, file, crew, items);
    }
    items.reverse();
}

/// Moves the item of a file, which is the last one that its worker has.
fn move_last(batch: &Batch<'_>, file: usize, crew: &mut Vec<Worker>, items: &mut Vec<Item>)
    requires workers { 1 ≤ batch.now.workers }
    requires crew { vec_len crew.old ≡ batch.now.workers }
    requires file { file < length batch.now.entries.now }
    requires shares { HaveSharesBelow batch.now (file + 1) crew.old.items }
    requires items { HasItemsFrom batch.now (file + 1) items.old.items }
    requires room { length batch.now.entries.now ≤ vec_capacity items.old }
    ensures crew { vec_len crew.new ≡ batch.now.workers }
    ensures shares { HaveSharesBelow batch.now file crew.new.items }
    ensures items { HasItemsFrom batch.now file items.new.items }
    ensures room { vec_capacity items.new ≡ vec_capacity items.old }
{
    let item = crew[file % batch.workers].take_last();
    items.push_reserved(item);
}
