//! The leaves of a tree with their weights.
ghost use Rattle.std.specs.Prelude.{◌≡◌, ◌-◌, ◌<◌, ◌≤◌, IfOk, length, pos, Some, slice_get, slice_index_or};
ghost use Rattle.def_sequence_form.specs.Sets.{tree_sets};
ghost use Rattle.def_tree.specs.Rules.{IsGameTree};
ghost use Rattle.def_tree.specs.Tree.{leaf_count, prefix};
ghost use Rattle.xg_seq.specs.Leaves.{AreLeaves};

use crate::leaf::Leaf;
use def_tree::Player;
use std::alloc::{AllocError, Global};
use xg_sets::Sets;
use xg_tree::{Tree, is_leaf};

/// The tree's leaves with their weights in turn.
pub(crate) fn leaves_of(
    alloc: Global,
    tree: &Tree,
    sets: &Sets,
    weights: &[i64],
) -> Result<Vec<Leaf>, AllocError>
    requires sets { sets.now ≡ tree_sets tree.now }
    requires weights { length weights.now ≡ leaf_count (prefix tree.now) }
    ensures leaves { IfOk result (λ leaves. AreLeaves tree.now weights.now leaves.items) }

    // What is true of every tree.
    ensures rules { IsGameTree tree.now }
{
    // a tree keeps the rules
    let _nodes = tree.len();
    let mut leaves = Vec::with_capacity(alloc, tree.leaves() as usize)?;
    for k in 0..tree.len() {
        if is_leaf(tree.node(k + 1)) {
            leaves.push(leaf_at(sets, k + 1, weights, leaves.len()))?;
        }
    }
    Ok(leaves)
}

// The leaf that is node `k`, with the weight at this place.
fn leaf_at(sets: &Sets, k: u32, weights: &[i64], place: usize) -> Leaf
    requires from_one { 1 ≤ k }
    requires one { k ≤ length sets.now.one.at_nodes }
    requires two { k ≤ length sets.now.two.at_nodes }
    requires place { place < length weights.now }
    ensures one { slice_get sets.now.one.at_nodes (k - 1) ≡ Some result.seq1 }
    ensures two { slice_get sets.now.two.at_nodes (k - 1) ≡ Some result.seq2 }
    ensures weight { result.w ≡ slice_index_or weights.now place (pos 0) }
{
    Leaf {
        seq1: sets.sequence_at(Player::One, k),
        seq2: sets.sequence_at(Player::Two, k),
        w: weights[place],
    }
}
