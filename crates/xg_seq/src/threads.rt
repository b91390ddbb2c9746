//! The leaves of each sequence of a player.
ghost use Rattle.std.specs.Prelude.{◌≡◌, ◌<◌, ◌≤◌, All, IfOk, length, map};
ghost use Rattle.def_plan.specs.Form.{leaf_sequence};
ghost use Rattle.def_tree.specs.Rules.{most_nodes};
ghost use Rattle.xg_seq.specs.Leaves.{leaf_of};
ghost use Rattle.xg_seq.specs.Threads.{KeepsThreads, leaf_of_number};

use crate::leaf::Leaf;
use def_tree::Player;
use std::alloc::{AllocError, Global};

/// A player's leaves by sequence: the first leaf of each sequence, and after each leaf the next one of its sequence.
///
/// Leaves are numbered from 1, and 0 stands for none.
#[derive(Drop)]
pub(crate) struct Threads {
    pub(crate) first: Vec<u32>,
    pub(crate) next: Vec<u32>,
}

/// The threads of these leaves, where the player has so many sequences.
pub(crate) fn threads_of(
    alloc: Global,
    leaves: &[Leaf],
    player: Player,
    sequences: u32,
) -> Result<Threads, AllocError>
    requires there { All (λ z. leaf_sequence player (leaf_of z) < sequences) leaves.now }
    requires few { length leaves.now ≤ most_nodes }
    ensures { IfOk result (λ threads.
        KeepsThreads player sequences (map leaf_of leaves.now) threads.first.items threads.next.items) }
{
    let mut first = vec![in alloc; 0u32; sequences as usize]?;
    let mut next = vec![in alloc; 0u32; leaves.len()]?;
    link_leaves(leaves, player, &mut first, &mut next);
    Ok(Threads { first, next })
}

// Goes from the last leaf to the first, so that leaves rise along each thread.
fn link_leaves(leaves: &[Leaf], player: Player, first: &mut [u32], next: &mut [u32])
    requires there { All (λ z. leaf_sequence player (leaf_of z) < length first.old) leaves.now }
    requires few { length leaves.now ≤ most_nodes }
    requires none { All (λ z. z ≡ 0) first.old }
    requires room { length next.old ≡ length leaves.now }
    ensures { KeepsThreads player (length first.old) (map leaf_of leaves.now) first.new next.new }
{
    for i in (0..leaves.len()).rev() {
        let s = leaves[i].sequence(player) as usize;
        next[i] = first[s];
        first[s] = i as u32 + 1;
    }
}

/// The leaf of a number that is kept.
pub(crate) fn leaf_of_number(z: u32) -> Option<u32>
    ensures { result ≡ leaf_of_number z }
{
    if z == 0 { None } else { Some(z) }
}
