//! Workers that add into the rows of small games.
ghost use Rattle.std.specs.Prelude.{◌≡◌, ◌≤◌, All, IfOk, length};
ghost use Rattle.std.specs.Thread.{IsSync};
ghost use Rattle.xg_jobs.specs.JobAmounts.{IsRoundOf};
ghost use Rattle.xg_jobs.specs.Rows.{AreNumbersOf, ArePlainSums};
ghost use Rattle.xg_jobs.specs.Table.{IsTableOf, most_touched};

use crate::games::{KUHN_ONE, KUHN_TWO, KUHN_WEIGHTS, THREE_JOBS, THREE_JOBS_WEIGHTS, put_kuhn};
use crate::gates::{Counts, Turns};
use crate::made::{Built, are_rows, build, input_of, made};
use std::alloc::{AllocError, Global};
use std::marker::Brand;
use std::process::Abort;
use std::sync::Wait;
use std::sync::atomic::{AtomicU64, Ordering};
use std::test::Fail;
use std::thread::Threads;
use xg_board::{Base, LockedRows, MadeBy, RowBoard, run_rows};
use xg_io::{Gate, OpenGate};
use xg_jobs::{JobTable, PlainRows, RowInput, RowMaker, Rows};
use xg_rowcore::{Packet, RowName};
use xg_test_data::nodes::{PENNIES, PENNIES_WEIGHTS};

// Draws, adds and closes with one pass, of worker 5.
fn add_by_one_pass<Rt: Abort + Threads + Wait + Sync, N: RowName, G: Gate>(
    rt: &Rt,
    alloc: Global,
    base: Base,
    packet: &mut Packet,
    input: &RowInput<'_>,
    jobs: &JobTable,
    gate: &G,
) -> Result<Rows, Fail>
    requires room { most_touched jobs.now.touched ≤ packet.old.entries.room }
    requires round { IsRoundOf N.jobs N.rows N.amount input.now jobs.now }
    requires base { (base.table.shared.table_id ≡ N.table) × (base.jobs ≡ length jobs.now.ranges) }
{
    let mut passes = Vec::with_capacity(alloc, 1)?;
    let (board, mut purse) = RowBoard::<N>::open(alloc, base, input.form, jobs)?;
    let mut pass = board.pass(&mut purse, 5);
    let Some(job) = board.draw(rt, &mut pass) else {
        panic!(rt; "a job is in the bag");
    };
    assert!(rt; job == 0);
    jobs.packet_into(job, input, packet);
    board.add(rt, &mut pass, packet, gate);
    let None = board.draw(rt, &mut pass) else {
        panic!(rt; "no job is left");
    };
    passes.push_reserved(pass);
    Ok(board.close(rt, purse, passes))
}

fn made_by_one_pass<Rt: Abort + Threads + Wait + Sync, G: Gate>(
    rt: &Rt,
    alloc: Global,
    input: &RowInput<'_>,
    jobs: &JobTable,
    gate: &G,
) -> Result<Rows, Fail>
    requires numbers { AreNumbersOf input.now.form.now input.now.one.now input.now.two.now }
    requires table { IsTableOf input.now.form.now jobs.now }
{
    let mut packet = Packet::new(alloc, jobs.room())?;
    let base = Base::new(alloc, jobs, 3)?;
    let _leaves = input.form.leaf_count();
    add_by_one_pass::<Rt, Brand, G>(rt, alloc, base, &mut packet, input, jobs, gate)
}

fn assert_one_pass<Rt: Abort + Threads + Wait + Sync>(
    rt: &Rt,
    alloc: Global,
    built: &Built,
) -> Result<(), Fail>
    requires sync { IsSync Rt.row }
    requires table { IsTableOf built.now.form built.now.jobs }
{
    let input = input_of(rt, &built.form, &[1, 0, 1], &[1, 0, 1]);
    let rows = made_by_one_pass(rt, alloc, &input, &built.jobs, &OpenGate)?;
    assert!(rt; are_rows(&rows, &[0, -1, 1], &[0, -1, 1]));
    Ok(())
}

#[test]
fn one_pass_adds_matching_pennies(rt: HostRuntime) -> Result<(), Fail> {
    let built = build(&rt, rt.alloc(), &PENNIES, &PENNIES_WEIGHTS)?;
    let asserted = assert_one_pass(&rt, rt.alloc(), &built);
    drop(built);
    asserted
}

/// Counts the visits of stripes, and keeps the first and the last one.
#[derive(Drop)]
struct Visits {
    count: AtomicU64,
    first: AtomicU64,
    last: AtomicU64,
}

impl Gate for Visits {
    fn pass<Rt: Threads + Wait + Sync>(&self, _rt: &Rt, _worker: u32, _job: u32) {}

    fn within<Rt: Threads + Wait + Sync>(&self, _rt: &Rt, _worker: u32, stripe: u32) {
        if self.count.fetch_add(1, Ordering::SeqCst) == 0 {
            self.first.store(u64::from(stripe), Ordering::SeqCst);
        }
        self.last.store(u64::from(stripe), Ordering::SeqCst);
    }
}

fn assert_first_visit<Rt: Abort + Threads + Wait + Sync>(
    rt: &Rt,
    alloc: Global,
    built: &Built,
) -> Result<(), Fail>
    requires sync { IsSync Rt.row }
    requires table { IsTableOf built.now.form built.now.jobs }
{
    let input = input_of(rt, &built.form, &[1, 0, 1], &[1, 0, 1]);
    let gate = Visits {
        count: AtomicU64::new(0),
        first: AtomicU64::new(64),
        last: AtomicU64::new(64),
    };
    let rows = made_by_one_pass(rt, alloc, &input, &built.jobs, &gate)?;
    assert!(rt;
        are_rows(&rows, &[0, -1, 1], &[0, -1, 1])
            && gate.count.load(Ordering::SeqCst) == 3
            && gate.first.load(Ordering::SeqCst) == 2
            && gate.last.load(Ordering::SeqCst) == 1
    );
    Ok(())
}

// Worker 5 visits three stripes from stripe 2 on.
#[test]
fn a_worker_begins_at_the_stripe_of_its_number(rt: HostRuntime) -> Result<(), Fail> {
    let built = build(&rt, rt.alloc(), &PENNIES, &PENNIES_WEIGHTS)?;
    let asserted = assert_first_visit(&rt, rt.alloc(), &built);
    drop(built);
    asserted
}

// The rows of a maker over these workers.
fn made_by_workers<Rt: Threads + Wait + Sync, G: Gate>(
    rt: &Rt,
    alloc: Global,
    input: &RowInput<'_>,
    jobs: &JobTable,
    workers: &LockedRows<'_, G>,
) -> Result<Rows, AllocError>
    requires numbers { AreNumbersOf input.now.form.now input.now.one.now input.now.two.now }
    requires table { IsTableOf input.now.form.now jobs.now }
    ensures { IfOk result (λ rows. ArePlainSums input.now.form.now input.now.one.now input.now.two.now rows) }
{
    let maker = MadeBy {
        make: |input: &RowInput<'_>, jobs: &JobTable| -> Result<Rows, AllocError>
            requires sync { IsSync Rt.row × IsSync G.row }
            requires numbers { AreNumbersOf input.now.form.now input.now.one.now input.now.two.now }
            requires table { IsTableOf input.now.form.now jobs.now }
            ensures { IfOk result (λ rows. ArePlainSums input.now.form.now input.now.one.now input.now.two.now rows) }
        { workers.rows(rt, alloc, input, jobs) },
    };
    made(rt, alloc, input, jobs, &maker)
}

fn assert_three_jobs<Rt: Abort + Threads + Wait + Sync>(
    rt: &Rt,
    alloc: Global,
    built: &Built,
) -> Result<(), AllocError>
    requires sync { IsSync Rt.row }
    requires table { IsTableOf built.now.form built.now.jobs }
{
    let input = input_of(rt, &built.form, &[10, 10, 0, 5, 5, 0, 10], &[2]);
    let gate = Counts::new();
    let workers = LockedRows {
        workers: 2,
        stripes: 16,
        gate: &gate,
    };
    let rows = made_by_workers(rt, alloc, &input, &built.jobs, &workers)?;
    assert!(rt; are_rows(&rows, &[0, 2, 4, 6, 8, 10, 12], &[105]) && gate.are(3, 48));
    Ok(())
}

#[test]
fn workers_call_the_gate_for_each_job_and_stripe(rt: HostRuntime) -> Result<(), Fail> {
    let built = build(&rt, rt.alloc(), &THREE_JOBS, &THREE_JOBS_WEIGHTS)?;
    let asserted = assert_three_jobs(&rt, rt.alloc(), &built);
    drop(built);
    Ok(asserted?)
}

fn assert_turns<Rt: Abort + Threads + Wait + Sync>(
    rt: &Rt,
    alloc: Global,
    built: &Built,
) -> Result<(), AllocError>
    requires sync { IsSync Rt.row }
    requires table { IsTableOf built.now.form built.now.jobs }
{
    let input = input_of(rt, &built.form, &[10, 10, 0, 5, 5, 0, 10], &[2]);
    let gate = Turns::new();
    let rows = run_rows(rt, alloc, &input, &built.jobs, 1, 3, &gate)?;
    drop(rows);
    assert!(rt; gate.are(12));
    Ok(())
}

// One worker passes the gate before it adds each of three jobs into three stripes.
#[test]
fn a_worker_passes_the_gate_before_it_adds(rt: HostRuntime) -> Result<(), Fail> {
    let built = build(&rt, rt.alloc(), &THREE_JOBS, &THREE_JOBS_WEIGHTS)?;
    let asserted = assert_turns(&rt, rt.alloc(), &built);
    drop(built);
    Ok(asserted?)
}

/// Whether the rows by so many stripes are these, with a call of the gate for each deal, and for each stripe of it.
fn has_rows<Rt: Threads + Wait + Sync>(
    rt: &Rt,
    alloc: Global,
    input: &RowInput<'_>,
    jobs: &JobTable,
    stripes: u32,
    plain: &Rows,
) -> Result<bool, AllocError>
    requires sync { IsSync Rt.row }
    requires numbers { AreNumbersOf input.now.form.now input.now.one.now input.now.two.now }
    requires table { IsTableOf input.now.form.now jobs.now }
    requires stripes { (1 ≤ stripes) × (stripes ≤ 64) }
{
    let gate = Counts::new();
    let rows = run_rows(rt, alloc, input, jobs, 2, stripes, &gate)?;
    Ok(are_rows(&rows, plain.one(), plain.two()) && gate.are(6, 6 * stripes as u64))
}

static STRIPES: [u32; 4] = [1, 2, 16, 64];

/// The first of these numbers of stripes with other rows or calls.
fn first_other_stripes<Rt: Threads + Wait + Sync>(
    rt: &Rt,
    alloc: Global,
    input: &RowInput<'_>,
    jobs: &JobTable,
    plain: &Rows,
    numbers: &[u32],
) -> Result<Option<u32>, AllocError>
    requires sync { IsSync Rt.row }
    requires numbers { AreNumbersOf input.now.form.now input.now.one.now input.now.two.now }
    requires table { IsTableOf input.now.form.now jobs.now }
    requires stripes { All (λ stripes. (1 ≤ stripes) × (stripes ≤ 64)) numbers.now }
{
    for stripes in numbers {
        if !has_rows(rt, alloc, input, jobs, *stripes, plain)? {
            return Ok(Some(*stripes));
        }
    }
    Ok(None)
}

fn assert_deals<Rt: Abort + Threads + Wait + Sync>(
    rt: &Rt,
    alloc: Global,
    built: &Built,
) -> Result<(), AllocError>
    requires sync { IsSync Rt.row }
    requires table { IsTableOf built.now.form built.now.jobs }
{
    let input = input_of(rt, &built.form, &KUHN_ONE, &KUHN_TWO);
    let plain = made(rt, alloc, &input, &built.jobs, &PlainRows)?;
    let other = first_other_stripes(rt, alloc, &input, &built.jobs, &plain, &STRIPES);
    drop(plain);
    assert_eq!(rt; other?, None);
    Ok(())
}

#[test]
fn workers_call_the_gate_for_each_deal_and_stripe(rt: HostRuntime) -> Result<(), Fail> {
    let mut nodes = Vec::new(rt.alloc());
    put_kuhn(&mut nodes)?;
    let built = build(&rt, rt.alloc(), &nodes, &KUHN_WEIGHTS)?;
    let asserted = assert_deals(&rt, rt.alloc(), &built);
    drop(built);
    Ok(asserted?)
}
