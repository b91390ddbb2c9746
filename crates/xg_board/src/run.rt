//! The run of all workers over the jobs of a round.
ghost use Rattle.std.specs.Prelude.{◌≡◌, ◌<◌, ◌≤◌, ◌+◌, ◌^◌, ◌⊎◌, [], IfOk, All, length};
ghost use Rattle.std.specs.Prelude.{vec_capacity, vec_len};
ghost use Rattle.def_sums.specs.Limits.{most_workers, most_stripes};
ghost use Rattle.xg_jobs.specs.JobAmounts.{IsRoundOf};
ghost use Rattle.xg_jobs.specs.Rows.{AreNumbersOf, ArePlainSums};
ghost use Rattle.xg_jobs.specs.Table.{IsTableOf, most_touched};
ghost use Rattle.xg_locked.specs.Rights.{number_from};
ghost use Rattle.xg_board.specs.Holdings.{Holding, tickets_of};
ghost use Rattle.xg_board.specs.Running.{IsSpent, IsReady};

use crate::base::Base;
use crate::board::RowBoard;
use crate::pass::Pass;
use crate::purse::Purse;
use std::alloc::{AllocError, Global};
use std::marker::Brand;
use std::sync::Wait;
use std::thread;
use std::thread::Threads;
use xg_io::Gate;
use xg_jobs::{JobTable, RowInput, Rows};
use xg_rowcore::{Packet, RowName};

// What a worker holds, and the packet of the job that it is at.
#[derive(Drop)]
struct Worker<N: RowName> {
    pass: Pass<N>,
    packet: Packet,
}

// Draws jobs and adds them until the bag is empty.
fn work<Rt: Threads + Wait + Sync, N: RowName, G: Gate>(
    rt: &Rt,
    board: &RowBoard<N>,
    input: &RowInput<'_>,
    jobs: &JobTable,
    worker: &mut Worker<N>,
    gate: &G,
)
    requires round { IsRoundOf N.jobs N.rows N.amount input.now jobs.now }
    requires ready { IsReady (number_from board.now.jobs board.now.stripes) (most_touched jobs.now.touched)
        worker.old.pass worker.old.packet.entries }
    ensures spent { IsSpent worker.new.pass }
    ensures grouped { (worker.new.packet ≡ worker.old.packet)
        ⊎ (length worker.new.packet.entries.list < 2 ^ 32
        → worker.new.packet.entries.chained ≡ board.now.stripes) }
{
    for _ in rt.forever() {
        let Some(job) = board.draw(rt, &mut worker.pass) else {
            return;
        };
        gate.pass(rt, worker.pass.worker(), job);
        jobs.packet_into(job, input, &mut worker.packet);
        worker.packet.group(board.stripes);
        board.add(rt, &mut worker.pass, &worker.packet, gate);
    }
    unreachable!()
}

// Lets all workers work, each in a thread.
fn work_all<Rt: Threads + Wait + Sync, N: RowName + Send + Sync, G: Gate>(
    rt: &Rt,
    board: &RowBoard<N>,
    input: &RowInput<'_>,
    jobs: &JobTable,
    crew: &mut Vec<Worker<N>>,
    gate: &G,
)
    requires round { IsRoundOf N.jobs N.rows N.amount input.now jobs.now }
    requires some { 0 < vec_len crew.old }
    requires ready { All (λ w. IsReady (number_from board.now.jobs board.now.stripes) (most_touched jobs.now.touched)
        w.pass w.packet.entries) crew.old.items }
    ensures done { All (λ w. IsSpent w.pass) crew.new.items }
    ensures same { vec_len crew.new ≡ vec_len crew.old }
{
    let count = crew.len();
    thread::for_each_mut(
        rt,
        crew.as_mut_slice(),
        count,
        &|_, worker: &mut Worker<N>|
            requires round { IsRoundOf N.jobs N.rows N.amount input.now jobs.now }
            requires ready { IsReady (number_from board.now.jobs board.now.stripes) (most_touched jobs.now.touched)
                worker.old.pass worker.old.packet.entries }
            ensures { IsSpent worker.new.pass }
        { work(rt, board, input, jobs, worker, gate) },
    );
}

// Makes the workers, each with a pass and a packet.
fn make_crew<N: RowName>(
    alloc: Global,
    board: &RowBoard<N>,
    purse: &mut Purse<N>,
    room: usize,
    count: u32,
) -> Result<Vec<Worker<N>>, AllocError>
    requires purse { purse.old ≡ record { made = 0; number = number_from board.now.jobs board.now.stripes } }
    requires few { count ≤ most_workers }
    ensures count { IfOk result (λ crew. length crew.items ≡ count) }
    ensures ready { IfOk result
        (λ crew. All (λ w. IsReady (number_from board.now.jobs board.now.stripes) room w.pass w.packet.entries)
        crew.items) }
    ensures purse { IfOk result
        (λ crew. purse.new ≡ record { made = count; number = number_from board.now.jobs board.now.stripes }) }
{
    let mut crew = Vec::with_capacity(alloc, count as usize)?;
    for number in 0..count {
        let packet = Packet::new(alloc, room)?;
        let pass = board.pass(purse, number);
        crew.push_reserved(Worker { pass, packet });
    }
    Ok(crew)
}

// The passes of workers that are done.
fn passes_of<N: RowName>(mut passes: Vec<Pass<N>>, crew: Vec<Worker<N>>) -> Vec<Pass<N>>
    requires room { (passes.items ≡ []) × (length crew.items ≤ vec_capacity passes) }
    requires done { All (λ w. IsSpent w.pass) crew.items }
    ensures count { length result.items ≡ length crew.items }
    ensures no_rights { All (λ (p : Holding). p.rights ≡ []) result.items }
    ensures spent { tickets_of result.items ≡ 0 }
{
    for worker in crew {
        let Worker { pass, packet: _ } = worker;
        passes.push_reserved(pass);
    }
    passes
}

// Runs the workers of a named board.
fn run_named<Rt: Threads + Wait + Sync, N: RowName + Send + Sync, G: Gate>(
    rt: &Rt,
    alloc: Global,
    base: Base,
    input: &RowInput<'_>,
    jobs: &JobTable,
    workers: u32,
    gate: &G,
) -> Result<Rows, AllocError>
    requires round { IsRoundOf N.jobs N.rows N.amount input.now jobs.now }
    requires base { (base.table.shared.table_id ≡ N.table) × (base.jobs ≡ length jobs.now.ranges) }
    requires workers { (1 ≤ workers) × (workers ≤ most_workers) }
    ensures { IfOk result (λ rows. ArePlainSums input.now.form.now input.now.one.now input.now.two.now rows) }
{
    let (board, mut purse) = RowBoard::<N>::open(alloc, base, input.form, jobs)?;
    // one pass at least has to find the bag empty, even if there were no job
    let count = workers.min(jobs.count().max(1));
    let mut crew = make_crew(alloc, &board, &mut purse, jobs.room(), count)?;
    let passes = Vec::with_capacity(alloc, count as usize)?;
    work_all(rt, &board, input, jobs, &mut crew, gate);
    Ok(board.close(rt, purse, passes_of(passes, crew)))
}

/// The plain sums over all leaves at each row, by at most so many workers in threads and by as many stripes.
///
/// Where a thread can't be started the caller does its work.
pub fn run_rows<Rt: Threads + Wait + Sync, G: Gate>(
    rt: &Rt,
    alloc: Global,
    input: &RowInput<'_>,
    jobs: &JobTable,
    workers: u32,
    stripes: u32,
    gate: &G,
) -> Result<Rows, AllocError>
    requires numbers { AreNumbersOf input.now.form.now input.now.one.now input.now.two.now }
    requires table { IsTableOf input.now.form.now jobs.now }
    requires workers { (1 ≤ workers) × (workers ≤ most_workers) }
    requires stripes { (1 ≤ stripes) × (stripes ≤ most_stripes) }
    ensures { IfOk result (λ rows. ArePlainSums input.now.form.now input.now.one.now input.now.two.now rows) }
{
    let base = Base::new(alloc, jobs, stripes)?;
    // a form's mass is small, and so are the jobs' amounts
    input.form.facts();
    run_named::<Rt, Brand, G>(rt, alloc, base, input, jobs, workers, gate)
}
