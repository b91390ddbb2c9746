//! The workers of a round in their threads.
ghost use Rattle.std.specs.Prelude.{◌≡◌, ◌<◌, ◌≤◌, ◌+◌, ◌-◌, ℕ, [], IfOk, All, Contains, length};
ghost use Rattle.std.specs.Prelude.{vec_len};
ghost use Rattle.def_sums.specs.Limits.{most_workers};
ghost use Rattle.xg_jobs.specs.JobAmounts.{IsRoundOf};
ghost use Rattle.xg_jobs.specs.Table.{most_touched};
ghost use Rattle.xg_words.specs.Running.{IsReadyToClaim, IsDoneClaiming};

use crate::board::WordBoard;
use crate::owner::Owner;
use crate::worker::Worker;
use std::alloc::{AllocError, Global};
use std::sync::Wait;
use std::thread;
use std::thread::Threads;
use xg_io::Gate;
use xg_jobs::{JobTable, RowInput};
use xg_rowcore::{Packet, RowName};

/// What a worker's thread holds: its number, its claims, and the packet of the job that it is at.
#[derive(Drop)]
pub(crate) struct Member<N: RowName> {
    number: u32,
    worker: Worker<N>,
    packet: Packet,
}

// Claims jobs and adds them until no job is left.
fn work<Rt: Threads + Wait + Sync, N: RowName, G: Gate>(
    rt: &Rt,
    board: &WordBoard<N>,
    input: &RowInput<'_>,
    jobs: &JobTable,
    member: &mut Member<N>,
    gate: &G,
)
    requires round { IsRoundOf N.jobs N.rows N.amount input.now jobs.now }
    requires ready { let table = board.now.table.shared.table_id in
        IsReadyToClaim table N.jobs N.rows N.amount (most_touched jobs.now.touched) member.old.worker
        member.old.packet.entries }
    ensures { IsDoneClaiming board.now.table.shared.table_id N.jobs N.rows N.amount member.new.worker }
{
    for _ in rt.forever() {
        let Some(job) = board.claim(&mut member.worker) else {
            return;
        };
        gate.pass(rt, member.number, job);
        jobs.packet_into(job, input, &mut member.packet);
        board.add(&mut member.worker, &member.packet);
    }
    unreachable!()
}

/// Lets all workers work, each in a thread.
pub(crate) fn work_all<Rt: Threads + Wait + Sync, N: RowName + Send + Sync, G: Gate>(
    rt: &Rt,
    board: &WordBoard<N>,
    input: &RowInput<'_>,
    jobs: &JobTable,
    crew: &mut Vec<Member<N>>,
    gate: &G,
)
    requires round { IsRoundOf N.jobs N.rows N.amount input.now jobs.now }
    requires some { 0 < vec_len crew.old }
    requires ready { All (λ m. IsReadyToClaim board.now.table.shared.table_id N.jobs N.rows N.amount
        (most_touched jobs.now.touched) m.worker m.packet.entries) crew.old.items }
    ensures done { let table = board.now.table.shared.table_id in
        All (λ m. IsDoneClaiming table N.jobs N.rows N.amount m.worker) crew.new.items }
    ensures same { vec_len crew.new ≡ vec_len crew.old }
{
    let count = crew.len();
    thread::for_each_mut(
        rt,
        crew.as_mut_slice(),
        count,
        &|_, member: &mut Member<N>|
            requires round { IsRoundOf N.jobs N.rows N.amount input.now jobs.now }
            requires ready { IsReadyToClaim board.now.table.shared.table_id N.jobs N.rows N.amount
                (most_touched jobs.now.touched) member.old.worker member.old.packet.entries }
            ensures { IsDoneClaiming board.entry.now.table.shared.table_id N.jobs N.rows N.amount member.new.worker }
        { work(rt, board, input, jobs, member, gate) },
    );
}

/// Makes the workers, each with a packet.
pub(crate) fn make_crew<N: RowName>(
    alloc: Global,
    board: &WordBoard<N>,
    owner: &mut Owner<N>,
    room: usize,
    count: u32,
) -> Result<Vec<Member<N>>, AllocError>
    requires owner { let table = board.now.table.shared.table_id in
        owner.old ≡ record { table = table; numbers = []; made = 0; unjoined = 0 } }
    requires few { count ≤ most_workers }
    ensures count { IfOk result (λ crew. length crew.items ≡ count) }
    ensures ready { let table = board.now.table.shared.table_id in
        IfOk result
        (λ crew. All (λ m. IsReadyToClaim table N.jobs N.rows N.amount room m.worker m.packet.entries) crew.items) }
    ensures owner { let table = board.now.table.shared.table_id in
        IfOk result (λ crew. owner.new ≡ record { table = table; numbers = []; made = count; unjoined = count }) }
{
    let mut crew = Vec::with_capacity(alloc, count as usize)?;
    for number in 0..count {
        let packet = Packet::new(alloc, room)?;
        let worker = board.worker(owner);
        crew.push_reserved(Member {
            number,
            worker,
            packet,
        });
    }
    Ok(crew)
}

/// Joins all workers.
pub(crate) fn join_all<N: RowName>(board: &WordBoard<N>, owner: &mut Owner<N>, crew: Vec<Member<N>>)
    requires owner { owner.old.table ≡ board.now.table.shared.table_id }
    requires unjoined { owner.old.unjoined ≡ length crew.items }
    requires some { 0 < length crew.items }
    requires done { let table = board.now.table.shared.table_id in
        All (λ m. IsDoneClaiming table N.jobs N.rows N.amount m.worker) crew.items }
    ensures table { owner.new.table ≡ owner.old.table }
    ensures all_joined { owner.new.unjoined ≡ 0 }
    ensures past { (n : ℕ) × Contains owner.new.numbers n × (N.jobs ≤ n) }
{
    for member in crew {
        let Member {
            number: _,
            worker,
            packet: _,
        } = member;
        board.join(owner, worker);
    }
}
