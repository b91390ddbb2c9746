//! The jobs of small games, their packets, and rows.
ghost use Rattle.std.specs.Prelude.{◌≤◌, All, map, sum, unsigned_abs};
ghost use Rattle.std.specs.Thread.{IsSync};
ghost use Rattle.def_sums.specs.Limits.{most_mass, most_root};
ghost use Rattle.xg_jobs.specs.Rows.{AreNumbersOf};
ghost use Rattle.xg_jobs.specs.Table.{IsTableOf};

use crate::games::THREE_DEALS;
use crate::made::{Built, are_rows, build, input_of};
use std::alloc::{AllocError, Global};
use std::process::Abort;
use std::sync::Wait;
use std::test::Fail;
use std::thread::Threads;
use xg_board::run_rows;
use xg_io::OpenGate;
use xg_jobs::{JobTable, PlainRows, RowInput, RowMaker, Rows};
use xg_rowcore::Packet;
use xg_seq::SeqForm;
use xg_test_data::node;
use xg_test_data::nodes::{LEAF, PENNIES, PENNIES_WEIGHTS};
use xg_tree::{Kind, Node};

fn crosses_threads<T: Send + Sync>() {}

fn put(rt: &impl Abort, rows: &mut Rows, row: u32, amount: i128) {
    assert!(rt; (row as usize) < rows.one().len() + rows.two().len());
    rows.put(row, amount);
}

fn assert_amounts(rt: &impl Abort, alloc: Global, form: &SeqForm) -> Result<(), AllocError> {
    let mut rows = Rows::new(alloc, form)?;
    put(rt, &mut rows, 1, -5);
    put(rt, &mut rows, 3, 1 << 100);
    put(rt, &mut rows, 5, 7);
    assert!(rt; are_rows(&rows, &[0, -5, 0], &[1 << 100, 0, 7]));
    Ok(())
}

#[test]
fn puts_amounts(rt: HostRuntime) -> Result<(), Fail> {
    let built = build(&rt, rt.alloc(), &PENNIES, &PENNIES_WEIGHTS)?;
    let asserted = assert_amounts(&rt, rt.alloc(), &built.form);
    drop(built);
    crosses_threads::<JobTable>();
    crosses_threads::<Rows>();
    Ok(asserted?)
}

/// Whether a job has so many leaves from this one on.
fn has_leaves(jobs: &JobTable, job: u32, first: u32, count: u32) -> bool {
    job < jobs.count() && jobs.leaves_of(job) == (first, count)
}

/// Chance leads to a choice of player one or ends the game.
static CHANCE_OVER_PLAYER: [Node; 5] = [node!(Chance, 1, 2), node!(One, 1, 2), LEAF, LEAF, LEAF];

static CHANCE_OVER_PLAYER_WEIGHTS: [i64; 3] = [1, 2, 3];

fn are_two_jobs(jobs: &JobTable) -> bool {
    jobs.count() == 2 && has_leaves(jobs, 0, 1, 2) && has_leaves(jobs, 1, 3, 1)
}

#[test]
fn cuts_the_jobs_of_a_chance_over_a_player(rt: HostRuntime) -> Result<(), Fail> {
    let (nodes, weights) = (&CHANCE_OVER_PLAYER, &CHANCE_OVER_PLAYER_WEIGHTS);
    let built = build(&rt, rt.alloc(), nodes, weights)?;
    let cut = are_two_jobs(&built.jobs);
    drop(built);
    assert!(rt; cut);
    Ok(())
}

/// The nodes of a path, of which the middle one is player one's and the others chance's.
fn path_of_most_nodes(alloc: Global) -> Result<Vec<Node>, AllocError> {
    let mut nodes = vec![in alloc; node!(Chance, 1, 1); 1_048_575]?;
    nodes[524_287] = node!(One, 1, 1);
    nodes.push(LEAF)?;
    Ok(nodes)
}

/// Whether there is one job of so many leaves.
fn is_one_job(jobs: &JobTable, count: u32) -> bool {
    jobs.count() == 1 && has_leaves(jobs, 0, 1, count)
}

// A path that is longer than a stack is deep.
#[test]
fn cuts_a_path_of_the_most_nodes(rt: HostRuntime) -> Result<(), Fail> {
    let nodes = path_of_most_nodes(rt.alloc())?;
    let built = build(&rt, rt.alloc(), &nodes, &[1])?;
    let cut = is_one_job(&built.jobs, 1);
    drop(built);
    assert!(rt; cut);
    Ok(())
}

#[test]
fn keeps_matching_pennies_as_one_job(rt: HostRuntime) -> Result<(), Fail> {
    let built = build(&rt, rt.alloc(), &PENNIES, &PENNIES_WEIGHTS)?;
    let kept = is_one_job(&built.jobs, 4);
    drop(built);
    assert!(rt; kept);
    Ok(())
}

/// Both players of matching pennies, with these weights, choose their second actions with this number. The sums are
/// those of player one's first sequence, of player two's first one, and of the second one of either.
struct Summed {
    weights: &'static [i64],
    number: u64,
    sums: [i128; 3],
}

const LEAST: i64 = -1 << 15;

const GREATEST: i64 = (1 << 15) - 1;

const LIGHT: [i64; 4] = [1 << 28, -2 << 28, -3 << 28, 4 << 28];

const HEAVY: [i64; 4] = [1 << 40, -2 << 40, -3 << 40, 4 << 40];

const MOST: u64 = 1 << 36;

// Weights of 16 bits, and of 32 and 64, each of these with sums of 64 bits and of 128.
static SUMS: [Summed; 7] = [
    Summed {
        weights: &[1, -1, -1, 1],
        number: 1,
        sums: [-1, -1, 1],
    },
    Summed {
        weights: &[0, LEAST, LEAST, GREATEST],
        number: 1,
        sums: [-1 << 15, -1 << 15, (1 << 15) - 1],
    },
    Summed {
        weights: &[0, GREATEST + 1, LEAST - 1, 1],
        number: 1,
        sums: [1 << 15, (-1 << 15) - 1, 1],
    },
    Summed {
        weights: &LIGHT,
        number: 1,
        sums: [-2 << 28, -3 << 28, 4 << 28],
    },
    Summed {
        weights: &LIGHT,
        number: MOST,
        sums: [-2 << 64, -3 << 64, 4 << 64],
    },
    Summed {
        weights: &HEAVY,
        number: 1,
        sums: [-2 << 40, -3 << 40, 4 << 40],
    },
    Summed {
        weights: &HEAVY,
        number: MOST,
        sums: [-2 << 76, -3 << 76, 4 << 76],
    },
];

const HALF: i64 = 1 << 30;

// Times the greatest number this just has no room in 64 bits, but has it below zero.
const PAST_WORD: i64 = 1 << 27;

// A leaf has the sequences of the one in its place after another deal. The sizes of all weights together are the
// greatest number of 31 bits, and one and two more. Then what a deal brings, or what some deals bring together, just
// has room in 64 bits, or just hasn't.
static SUMS_AFTER_DEALS: [Summed; 10] = [
    Summed {
        weights: &[0, 0, 0, HALF, 0, 0, 0, HALF - 2, 0, 0, 0, 1],
        number: 1,
        sums: [0, 0, (1 << 31) - 1],
    },
    Summed {
        weights: &[0, -HALF, 0, 0, 0, 1 - HALF, 0, 0, 0, 0, 0, 0],
        number: MOST,
        sums: [(1 << 36) - (1 << 67), 0, 0],
    },
    Summed {
        weights: &[0, 0, 0, HALF, 0, 0, 0, HALF - 1, 0, 0, 0, 1],
        number: 1,
        sums: [0, 0, 1 << 31],
    },
    Summed {
        weights: &[0, 0, -HALF, 0, 0, 0, -HALF, 0, 0, 0, 0, 0],
        number: MOST,
        sums: [0, -1 << 67, 0],
    },
    Summed {
        weights: &[0, 0, -HALF - 1, 0, 0, 0, -HALF, 0, 0, 0, 0, 0],
        number: 1,
        sums: [0, (-1 << 31) - 1, 0],
    },
    Summed {
        weights: &[
            0,
            0,
            0,
            PAST_WORD / 2,
            0,
            0,
            0,
            PAST_WORD / 2 - 1,
            0,
            0,
            0,
            0,
        ],
        number: MOST,
        sums: [0, 0, (1 << 63) - (1 << 36)],
    },
    Summed {
        weights: &[0, 0, 0, PAST_WORD / 2, 0, 0, 0, PAST_WORD / 2, 0, 0, 0, 0],
        number: MOST,
        sums: [0, 0, 1 << 63],
    },
    Summed {
        weights: &[0, -PAST_WORD, 0, PAST_WORD, 0, 0, 0, 0, 0, 0, 0, 3],
        number: MOST,
        sums: [-1 << 63, 0, (1 << 63) + (3 << 36)],
    },
    Summed {
        weights: &[0, -PAST_WORD, 0, PAST_WORD - 1, 0, -1, 0, 1, 0, 0, 5, 0],
        number: MOST,
        sums: [(-1 << 63) - (1 << 36), 5 << 36, 1 << 63],
    },
    Summed {
        weights: &[
            0,
            PAST_WORD,
            0,
            -PAST_WORD - 1,
            0,
            -PAST_WORD,
            0,
            PAST_WORD,
            0,
            2,
            0,
            0,
        ],
        number: MOST,
        sums: [2 << 36, 0, -1 << 36],
    },
];

fn has_sums<Rt: Abort + Threads + Wait + Sync>(
    rt: &Rt,
    alloc: Global,
    built: &Built,
    row: &Summed,
) -> Result<bool, AllocError>
    requires sync { IsSync Rt.row }
    requires table { IsTableOf built.now.form built.now.jobs }
    requires number { row.now.number ≤ most_root }
{
    let numbers = [row.number, 0, row.number];
    let input = input_of(rt, &built.form, &numbers, &numbers);
    let rows = PlainRows.rows(rt, alloc, &input, &built.jobs)?;
    let by_workers = run_rows(rt, alloc, &input, &built.jobs, 3, 16, &OpenGate)?;
    let [first_one, first_two, second] = row.sums;
    let one = [0, first_one, second];
    let two = [0, first_two, second];
    Ok(are_rows(&rows, &one, &two) && are_rows(&by_workers, &one, &two))
}

fn sums_up<Rt: Abort + Threads + Wait + Sync>(
    rt: &Rt,
    alloc: Global,
    nodes: &[Node],
    row: &Summed,
) -> Result<bool, Fail>
    requires sync { IsSync Rt.row }
    requires mass { sum (map unsigned_abs row.now.weights.now) ≤ most_mass }
    requires number { row.now.number ≤ most_root }
{
    let built = build(rt, alloc, nodes, row.weights)?;
    let same = has_sums(rt, alloc, &built, row);
    drop(built);
    Ok(same?)
}

/// The first row with other sums, counted from 0.
fn first_other_sums<Rt: Abort + Threads + Wait + Sync>(
    rt: &Rt,
    alloc: Global,
    nodes: &[Node],
    rows: &[Summed],
) -> Result<Option<usize>, Fail>
    requires sync { IsSync Rt.row }
    requires mass { All (λ row. sum (map unsigned_abs row.weights.now) ≤ most_mass) rows.now }
    requires number { All (λ row. row.number ≤ most_root) rows.now }
{
    for (k, row) in rows.iter().enumerate() {
        if !sums_up(rt, alloc, nodes, row)? {
            return Ok(Some(k));
        }
    }
    Ok(None)
}

#[test]
fn sums_the_leaves_of_matching_pennies(rt: HostRuntime) -> Result<(), Fail> {
    let other = first_other_sums(&rt, rt.alloc(), &PENNIES, &SUMS)?;
    assert_eq!(rt; other, None);
    Ok(())
}

// Leaves with the same sequences become one entry, in which their weights together have room.
#[test]
fn sums_leaves_of_the_same_sequences(rt: HostRuntime) -> Result<(), Fail> {
    let other = first_other_sums(&rt, rt.alloc(), &THREE_DEALS, &SUMS_AFTER_DEALS)?;
    assert_eq!(rt; other, None);
    Ok(())
}

fn has_entries(packet: &Packet, entries: &[(u32, i128)]) -> bool {
    if packet.len() != entries.len() {
        return false;
    }
    for i in 0..packet.len() {
        let (row, amount) = packet.entry(i);
        if row != entries[i].0 || amount != entries[i].1 {
            return false;
        }
    }
    true
}

/// Whether the packet of a job has these entries, from these numbers.
fn is_packed(
    rt: &impl Abort,
    alloc: Global,
    input: &RowInput<'_>,
    jobs: &JobTable,
    job: u32,
    entries: &[(u32, i128)],
) -> Result<bool, AllocError>
    requires numbers { AreNumbersOf input.now.form.now input.now.one.now input.now.two.now }
    requires table { IsTableOf input.now.form.now jobs.now }
{
    assert!(rt; job < jobs.count());
    let mut packet = Packet::new(alloc, jobs.room())?;
    jobs.packet_into(job, input, &mut packet);
    Ok(packet.job == job && has_entries(&packet, entries))
}

static PENNIES_ENTRIES: [(u32, i128); 4] = [(1, -1), (2, 1), (4, -1), (5, 1)];

fn packs_pennies(rt: &impl Abort, alloc: Global, built: &Built) -> Result<bool, AllocError>
    requires { IsTableOf built.now.form built.now.jobs }
{
    let input = input_of(rt, &built.form, &[1, 0, 1], &[1, 0, 1]);
    is_packed(rt, alloc, &input, &built.jobs, 0, &PENNIES_ENTRIES)
}

#[test]
fn packs_matching_pennies(rt: HostRuntime) -> Result<(), Fail> {
    let built = build(&rt, rt.alloc(), &PENNIES, &PENNIES_WEIGHTS)?;
    let packed = packs_pennies(&rt, rt.alloc(), &built);
    drop(built);
    assert!(rt; packed?);
    Ok(())
}

static FIRST_ENTRIES: [(u32, i128); 3] = [(1, 5), (2, 10), (3, 8)];

static SECOND_ENTRIES: [(u32, i128); 2] = [(0, 15), (3, 15)];

fn packs_two_jobs(rt: &impl Abort, alloc: Global, built: &Built) -> Result<bool, AllocError>
    requires { IsTableOf built.now.form built.now.jobs }
{
    let input = input_of(rt, &built.form, &[5, 2, 3], &[5]);
    let jobs = &built.jobs;
    Ok(
        jobs.room() == 3
            && is_packed(rt, alloc, &input, jobs, 0, &FIRST_ENTRIES)?
            && is_packed(rt, alloc, &input, jobs, 1, &SECOND_ENTRIES)?,
    )
}

#[test]
fn packs_each_job_alone(rt: HostRuntime) -> Result<(), Fail> {
    let (nodes, weights) = (&CHANCE_OVER_PLAYER, &CHANCE_OVER_PLAYER_WEIGHTS);
    let built = build(&rt, rt.alloc(), nodes, weights)?;
    let packed = packs_two_jobs(&rt, rt.alloc(), &built);
    drop(built);
    assert!(rt; packed?);
    Ok(())
}
