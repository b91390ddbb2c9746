//! Workers that add into atomic words of small games.
ghost use Rattle.std.specs.Prelude.{◌≤◌, All, IfOk, map, sum, unsigned_abs};
ghost use Rattle.std.specs.Thread.{IsSync};
ghost use Rattle.def_sums.specs.Limits.{most_mass, most_root, most_workers};
ghost use Rattle.xg_jobs.specs.Rows.{AreNumbersOf, ArePlainSums};
ghost use Rattle.xg_jobs.specs.Table.{IsTableOf};

use crate::games::{
    KUHN_ONE, KUHN_TWO, KUHN_WEIGHTS, THREE_DEALS, THREE_DEALS_WEIGHTS, THREE_JOBS, put_kuhn,
};
use crate::gates::{Counts, Delays};
use crate::made::{Built, are_rows, build, input_of, made};
use std::alloc::{AllocError, Global};
use std::process::Abort;
use std::sync::Wait;
use std::test::Fail;
use std::thread::Threads;
use xg_board::MadeBy;
use xg_io::{Gate, OpenGate};
use xg_jobs::{JobTable, PlainRows, RowInput, Rows};
use xg_test_data::nodes::{LEAF, ONE_CHOICE, PENNIES, PENNIES_WEIGHTS};
use xg_tree::Node;
use xg_words::{AtomicRows, fits, run_words};

/// Whether the rows of a tree with these weights fit, against these numbers.
fn tree_fits(
    rt: &impl Abort,
    alloc: Global,
    nodes: &[Node],
    weights: &[i64],
    one: &[u64],
    two: &[u64],
) -> Result<bool, Fail>
    requires weights { sum (map unsigned_abs weights.now) ≤ most_mass }
    requires one { All (λ n. n ≤ most_root) one.now }
    requires two { All (λ n. n ≤ most_root) two.now }
{
    let built = build(rt, alloc, nodes, weights)?;
    let fits = fits(&input_of(rt, &built.form, one, two));
    drop(built);
    Ok(fits)
}

const LIMIT: i64 = 1 << 62;

const ROOT: u64 = 1 << 36;

/// A leaf alone, with its weight and both players' numbers, and whether it fits.
static LEAVES: [(i64, u64, u64, bool); 10] = [
    (LIMIT - 1, 1, 1, true),
    (LIMIT, 1, 1, false),
    (LIMIT, 0, 0, true),
    (1 - LIMIT, 1, 2, false),
    (0, ROOT, ROOT, true),
    (LIMIT, ROOT, 1, false),
    (1 << 28, ROOT, ROOT, false),
    (1 << 26, ROOT, ROOT, false),
    ((1 << 26) - 1, ROOT, ROOT, true),
    (1 << 20, ROOT, 1, true),
];

/// The place of the first leaf that doesn't fit as it should.
fn first_other_leaf(
    rt: &impl Abort,
    alloc: Global,
    leaves: &[(i64, u64, u64, bool)],
) -> Result<Option<usize>, Fail>
    requires weights { All (λ leaf. unsigned_abs leaf.0 ≤ most_mass) leaves.now }
    requires numbers { All (λ leaf. (leaf.1 ≤ most_root) × (leaf.2 ≤ most_root)) leaves.now }
{
    for i in 0..leaves.len() {
        let (weight, one, two, fits) = leaves[i];
        if tree_fits(rt, alloc, &[LEAF], &[weight], &[one], &[two])? != fits {
            return Ok(Some(i));
        }
    }
    Ok(None)
}

#[test]
fn a_leaf_fits_below_the_limit(rt: HostRuntime) -> Result<(), Fail> {
    assert_eq!(rt; first_other_leaf(&rt, rt.alloc(), &LEAVES)?, None);
    Ok(())
}

const HALF: i64 = 1 << 40;

const UNIT: u64 = 1 << 20;

#[test]
fn leaves_fit_by_their_mass_and_the_greatest_number(rt: HostRuntime) -> Result<(), Fail> {
    let alloc = rt.alloc();
    let tree = &ONE_CHOICE;
    let both = &[HALF, -HALF];
    assert!(rt;
        tree_fits(
            &rt,
            alloc,
            tree,
            &[2 * HALF - 1, -2 * HALF],
            &[UNIT, UNIT, 0],
            &[UNIT]
        )? && tree_fits(
            &rt,
            alloc,
            tree,
            both,
            &[2 * UNIT - 1, UNIT, UNIT - 1],
            &[UNIT]
        )? && tree_fits(
            &rt,
            alloc,
            tree,
            &[HALF, 0],
            &[2 * UNIT, 2 * UNIT, 0],
            &[2 * UNIT]
        )? && tree_fits(
            &rt,
            alloc,
            &PENNIES,
            &PENNIES_WEIGHTS,
            &[1, 1, 0],
            &[1, 0, ROOT]
        )?
    );
    assert!(rt;
        !tree_fits(&rt, alloc, tree, both, &[2 * UNIT, UNIT, UNIT], &[UNIT])?
            && !tree_fits(&rt, alloc, tree, both, &[1, 0, 1], &[2 * UNIT])?
            && !tree_fits(&rt, alloc, tree, both, &[1, 2 * UNIT, 1], &[1])?
            && !tree_fits(
                &rt,
                alloc,
                tree,
                &[HALF << 20, -HALF << 20],
                &[2, 1, 1],
                &[1]
            )?
            && !tree_fits(&rt, alloc, tree, &[HALF << 21, 0], &[4, 0, 4], &[0])?
    );
    Ok(())
}

/// The rows of a small input, by two workers.
fn words_of<Rt: Abort + Threads + Wait + Sync>(
    rt: &Rt,
    alloc: Global,
    built: &Built,
    one: &[u64],
    two: &[u64],
) -> Result<Rows, AllocError>
    requires sync { IsSync Rt.row }
    requires table { IsTableOf built.now.form built.now.jobs }
    requires one { All (λ n. n ≤ most_root) one.now }
    requires two { All (λ n. n ≤ most_root) two.now }
{
    let input = input_of(rt, &built.form, one, two);
    assert!(rt; fits(&input));
    run_words(rt, alloc, &input, &built.jobs, 2, &OpenGate)
}

fn assert_deals<Rt: Abort + Threads + Wait + Sync>(
    rt: &Rt,
    alloc: Global,
    built: &Built,
) -> Result<(), AllocError>
    requires sync { IsSync Rt.row }
    requires table { IsTableOf built.now.form built.now.jobs }
{
    let rows = words_of(rt, alloc, built, &[3, 1, 2], &[3, 2, 1])?;
    let none = words_of(rt, alloc, built, &[0, 0, 0], &[0, 0, 0])?;
    assert!(rt;
        are_rows(&rows, &[0, 0, 8], &[0, 18, -20]) && are_rows(&none, &[0, 0, 0], &[0, 0, 0])
    );
    Ok(())
}

// Amounts of both signs at one row, and some that are 0.
#[test]
fn words_have_the_sums_of_three_deals(rt: HostRuntime) -> Result<(), Fail> {
    let built = build(&rt, rt.alloc(), &THREE_DEALS, &THREE_DEALS_WEIGHTS)?;
    let asserted = assert_deals(&rt, rt.alloc(), &built);
    drop(built);
    Ok(asserted?)
}

fn assert_pennies<Rt: Abort + Threads + Wait + Sync>(
    rt: &Rt,
    alloc: Global,
    built: &Built,
) -> Result<(), AllocError>
    requires sync { IsSync Rt.row }
    requires table { IsTableOf built.now.form built.now.jobs }
{
    let rows = words_of(rt, alloc, built, &[1, 0, 1], &[1, 0, 1])?;
    let none = words_of(rt, alloc, built, &[2, 1, 1], &[2, 1, 1])?;
    assert!(rt;
        are_rows(&rows, &[0, -1, 1], &[0, -1, 1]) && are_rows(&none, &[0, 0, 0], &[0, 0, 0])
    );
    Ok(())
}

#[test]
fn words_have_the_sums_of_pennies(rt: HostRuntime) -> Result<(), Fail> {
    let built = build(&rt, rt.alloc(), &PENNIES, &PENNIES_WEIGHTS)?;
    let asserted = assert_pennies(&rt, rt.alloc(), &built);
    drop(built);
    Ok(asserted?)
}

/// The rows of a maker over these workers.
fn made_by_words<Rt: Threads + Wait + Sync, G: Gate>(
    rt: &Rt,
    alloc: Global,
    input: &RowInput<'_>,
    jobs: &JobTable,
    workers: &AtomicRows<'_, G>,
) -> Result<Rows, AllocError>
    requires numbers { AreNumbersOf input.now.form.now input.now.one.now input.now.two.now }
    requires table { IsTableOf input.now.form.now jobs.now }
    ensures { IfOk result (λ rows. ArePlainSums input.now.form.now input.now.one.now input.now.two.now rows) }
{
    let maker = MadeBy {
        make: |input: &RowInput<'_>, jobs: &JobTable| -> Result<Rows, AllocError>
            requires sync { IsSync Rt.row × IsSync G.row }
            requires numbers { AreNumbersOf input.now.form.now input.now.one.now input.now.two.now }
            requires table { IsTableOf input.now.form.now jobs.now }
            ensures { IfOk result (λ rows. ArePlainSums input.now.form.now input.now.one.now input.now.two.now rows) }
        { workers.rows(rt, alloc, input, jobs) },
    };
    made(rt, alloc, input, jobs, &maker)
}

/// Whether the rows by so many workers are these, with a call of the gate for each deal.
fn has_rows<Rt: Threads + Wait + Sync>(
    rt: &Rt,
    alloc: Global,
    input: &RowInput<'_>,
    jobs: &JobTable,
    workers: u32,
    plain: &Rows,
) -> Result<bool, AllocError>
    requires sync { IsSync Rt.row }
    requires numbers { AreNumbersOf input.now.form.now input.now.one.now input.now.two.now }
    requires table { IsTableOf input.now.form.now jobs.now }
    requires workers { (1 ≤ workers) × (workers ≤ most_workers) }
{
    let gate = Delays {
        counts: Counts::new(),
    };
    let workers = AtomicRows {
        workers,
        gate: &gate,
    };
    let rows = made_by_words(rt, alloc, input, jobs, &workers)?;
    Ok(are_rows(&rows, plain.one(), plain.two()) && gate.counts.are(6, 0))
}

static WORKERS: [u32; 6] = [1, 2, 3, 4, 7, 64];

/// The first of these numbers of workers with other rows or calls.
fn first_other_workers<Rt: Threads + Wait + Sync>(
    rt: &Rt,
    alloc: Global,
    input: &RowInput<'_>,
    jobs: &JobTable,
    plain: &Rows,
    numbers: &[u32],
) -> Result<Option<u32>, AllocError>
    requires sync { IsSync Rt.row }
    requires numbers { AreNumbersOf input.now.form.now input.now.one.now input.now.two.now }
    requires table { IsTableOf input.now.form.now jobs.now }
    requires workers { All (λ workers. (1 ≤ workers) × (workers ≤ most_workers)) numbers.now }
{
    for workers in numbers {
        if !has_rows(rt, alloc, input, jobs, *workers, plain)? {
            return Ok(Some(*workers));
        }
    }
    Ok(None)
}

fn assert_poker<Rt: Abort + Threads + Wait + Sync>(
    rt: &Rt,
    alloc: Global,
    built: &Built,
) -> Result<(), AllocError>
    requires sync { IsSync Rt.row }
    requires table { IsTableOf built.now.form built.now.jobs }
{
    let input = input_of(rt, &built.form, &KUHN_ONE, &KUHN_TWO);
    let plain = made(rt, alloc, &input, &built.jobs, &PlainRows)?;
    let other = first_other_workers(rt, alloc, &input, &built.jobs, &plain, &WORKERS);
    drop(plain);
    assert_eq!(rt; other?, None);
    Ok(())
}

#[test]
fn words_have_the_plain_sums_for_any_number_of_workers(rt: HostRuntime) -> Result<(), Fail> {
    let mut nodes = Vec::new(rt.alloc());
    put_kuhn(&mut nodes)?;
    let built = build(&rt, rt.alloc(), &nodes, &KUHN_WEIGHTS)?;
    let asserted = assert_poker(&rt, rt.alloc(), &built);
    drop(built);
    Ok(asserted?)
}

fn assert_large<Rt: Abort + Threads + Wait + Sync>(
    rt: &Rt,
    alloc: Global,
    built: &Built,
) -> Result<(), AllocError>
    requires sync { IsSync Rt.row }
    requires table { IsTableOf built.now.form built.now.jobs }
{
    let input = input_of(rt, &built.form, &[ROOT, 0, ROOT, 0, 0, 0, 0], &[ROOT]);
    let gate = Counts::new();
    let workers = AtomicRows {
        workers: 2,
        gate: &gate,
    };
    let rows = made_by_words(rt, alloc, &input, &built.jobs, &workers)?;
    assert!(rt; !fits(&input));
    assert!(rt; are_rows(&rows, &[0, 0, 1 << 96, 0, 0, 0, 0], &[1 << 96]) && gate.are(3, 48));
    Ok(())
}

static LARGE_WEIGHTS: [i64; 6] = [0, 1 << 60, 0, 0, 0, 0];

// Past the limit rows are made behind locks.
#[test]
fn large_rows_are_made_in_sixteen_stripes(rt: HostRuntime) -> Result<(), Fail> {
    let built = build(&rt, rt.alloc(), &THREE_JOBS, &LARGE_WEIGHTS)?;
    let asserted = assert_large(&rt, rt.alloc(), &built);
    drop(built);
    Ok(asserted?)
}
