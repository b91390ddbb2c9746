//! Trees by their nodes, and their forms.
ghost use Rattle.std.specs.Prelude.{◌≡◌, ◌≤◌, ◌++◌, IfOk, IsOk, OnOk, map, sum, unsigned_abs};
ghost use Rattle.def_sums.specs.Limits.{most_mass};
ghost use Rattle.def_tree.specs.Tree.{forest_of};
ghost use Rattle.def_sequence_form.specs.Form.{form_of};

use std::alloc::Global;
use std::process::Abort;
use std::test::Fail;
use xg_seq::SeqForm;
use xg_sets::build_sets;
use xg_tree::{Builder, Node, PushFault, Tree};

/// Puts nodes that keep the rules of sets and children.
pub(crate) fn put(rt: &impl Abort, builder: &mut Builder, nodes: &[Node]) -> Result<(), PushFault>
    ensures { OnOk result (builder.new ≡ builder.old ++ nodes.now) }
{
    for node in nodes {
        assert!(rt; !builder.is_complete());
        assert!(rt; builder.fits(*node));
        builder.push(*node)?;
    }
    Ok(())
}

/// The tree of a builder into which all its nodes were put.
pub(crate) fn finished(
    rt: &impl Abort,
    builder: Builder,
    all_put: Result<(), PushFault>,
) -> Result<Tree, PushFault>
    ensures tree { IfOk result (λ tree. tree ≡ forest_of builder) }
    ensures put { OnOk result (IsOk all_put) }
{
    match all_put {
        Ok(()) => {
            assert!(rt; builder.is_complete());
            Ok(builder.finish())
        }
        Err(fault) => {
            drop(builder);
            Err(fault)
        }
    }
}

pub(crate) fn tree_of(rt: &impl Abort, alloc: Global, nodes: &[Node]) -> Result<Tree, PushFault>
    ensures { IfOk result (λ tree. tree ≡ forest_of nodes.now) }
{
    let mut builder = Builder::new(alloc);
    let all_put = put(rt, &mut builder, nodes);
    finished(rt, builder, all_put)
}

/// The form of the nodes' tree, whose leaves have these weights in turn.
pub(crate) fn build_form(
    rt: &impl Abort,
    alloc: Global,
    nodes: &[Node],
    weights: &[i64],
) -> Result<SeqForm, Fail>
    requires { sum (map unsigned_abs weights.now) ≤ most_mass }
    ensures { IfOk result (λ form. form ≡ form_of (forest_of nodes.now) weights.now) }
{
    let tree = tree_of(rt, alloc, nodes)?;
    let built = build_form_of(rt, alloc, &tree, weights);
    drop(tree);
    built
}

fn build_form_of(
    rt: &impl Abort,
    alloc: Global,
    tree: &Tree,
    weights: &[i64],
) -> Result<SeqForm, Fail>
    requires { sum (map unsigned_abs weights.now) ≤ most_mass }
    ensures { IfOk result (λ form. form ≡ form_of tree.now weights.now) }
{
    assert!(rt; weights.len() == tree.leaves() as usize);
    let sets = build_sets(alloc, tree)?;
    let built = SeqForm::build(alloc, tree, &sets, weights);
    drop(sets);
    Ok(built?)
}
