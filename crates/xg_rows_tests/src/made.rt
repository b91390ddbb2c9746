//! Trees by their nodes, and their forms and jobs.
ghost use Rattle.std.specs.Prelude.{◌≡◌, ◌≤◌, All, IfOk, map, sum, unsigned_abs};
ghost use Rattle.def_sums.specs.Limits.{most_mass, most_root};
ghost use Rattle.xg_jobs.specs.Rows.{AreNumbersOf, ArePlainSums};
ghost use Rattle.xg_jobs.specs.Table.{IsFormOf, IsTableOf};

use def_tree::Player;
use std::alloc::{AllocError, Global};
use std::process::Abort;
use std::sync::Wait;
use std::test::Fail;
use std::thread::Threads;
use xg_jobs::{JobTable, RowInput, RowMaker, Rows};
use xg_seq::SeqForm;
use xg_sets::build_sets;
use xg_tree::{Builder, Node, PushFault, Tree};

fn put(rt: &impl Abort, builder: &mut Builder, nodes: &[Node]) -> Result<(), PushFault> {
    for node in nodes {
        assert!(rt; !builder.is_complete());
        assert!(rt; builder.fits(*node));
        builder.push(*node)?;
    }
    Ok(())
}

fn tree_of(rt: &impl Abort, alloc: Global, nodes: &[Node]) -> Result<Tree, PushFault> {
    let mut builder = Builder::new(alloc);
    match put(rt, &mut builder, nodes) {
        Ok(()) => {
            assert!(rt; builder.is_complete());
            Ok(builder.finish())
        }
        Err(fault) => {
            drop(builder);
            Err(fault)
        }
    }
}

fn form_of(rt: &impl Abort, alloc: Global, tree: &Tree, weights: &[i64]) -> Result<SeqForm, Fail>
    requires { sum (map unsigned_abs weights.now) ≤ most_mass }
    ensures { IfOk result (λ form. IsFormOf form tree.now) }
{
    assert!(rt; weights.len() == tree.leaves() as usize);
    let sets = build_sets(alloc, tree)?;
    let built = SeqForm::build(alloc, tree, &sets, weights);
    drop(sets);
    Ok(built?)
}

/// The form of a tree with its jobs.
#[derive(Drop)]
pub(crate) struct Built {
    pub(crate) form: SeqForm,
    pub(crate) jobs: JobTable,
}

fn with_jobs(alloc: Global, form: SeqForm, tree: &Tree) -> Result<Built, Fail>
    requires { IsFormOf form tree.now }
    ensures { IfOk result (λ built. IsTableOf built.form built.jobs) }
{
    match JobTable::build(alloc, &form, tree) {
        Ok(jobs) => Ok(Built { form, jobs }),
        Err(error) => {
            drop(form);
            Err(error.into())
        }
    }
}

/// The form of the nodes' tree with these weights, and its jobs.
pub(crate) fn build(
    rt: &impl Abort,
    alloc: Global,
    nodes: &[Node],
    weights: &[i64],
) -> Result<Built, Fail>
    requires { sum (map unsigned_abs weights.now) ≤ most_mass }
    ensures { IfOk result (λ built. IsTableOf built.form built.jobs) }
{
    let tree = tree_of(rt, alloc, nodes)?;
    let built = match form_of(rt, alloc, &tree, weights) {
        Ok(form) => with_jobs(alloc, form, &tree),
        Err(error) => Err(error),
    };
    drop(tree);
    built
}

/// What rows are made from, if there is a number for each sequence.
pub(crate) fn input_of<'a>(
    rt: &impl Abort,
    form: &'a SeqForm,
    one: &'a [u64],
    two: &'a [u64],
) -> RowInput<'a>
    requires one { All (λ n. n ≤ most_root) one.now }
    requires two { All (λ n. n ≤ most_root) two.now }
    ensures form { result.form.now ≡ form.now }
    ensures numbers { AreNumbersOf result.form.now result.one.now result.two.now }
{
    assert!(rt; form.sequence_count(Player::One) as usize == one.len());
    assert!(rt; form.sequence_count(Player::Two) as usize == two.len());
    RowInput { form, one, two }
}

pub(crate) fn are_rows(rows: &Rows, one: &[i128], two: &[i128]) -> bool {
    rows.one() == one && rows.two() == two
}

/// The rows of a maker.
pub(crate) fn made<Rt: Threads + Wait + Sync, M: RowMaker>(
    rt: &Rt,
    alloc: Global,
    input: &RowInput<'_>,
    jobs: &JobTable,
    maker: &M,
) -> Result<Rows, AllocError>
    requires can { M.can_make maker.now }
    requires numbers { AreNumbersOf input.now.form.now input.now.one.now input.now.two.now }
    requires table { IsTableOf input.now.form.now jobs.now }
    ensures { IfOk result (λ rows. ArePlainSums input.now.form.now input.now.one.now input.now.two.now rows) }
{
    maker.rows(rt, alloc, input, jobs)
}
