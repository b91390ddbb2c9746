//! Sets, sequences and breaks of recall of small trees.
ghost use Rattle.std.specs.Prelude.{◌≡◌, Ok};
ghost use Rattle.def_sequence_form.specs.Sets.{sets_or_break};

use crate::made::{finished, put, tree_of};
use std::alloc::Global;
use std::process::Abort;
use std::test::Fail;
use xg_sets::{Player, RecallFault, Sets, build_sets};
use xg_test_data::node;
use xg_test_data::nodes::{LEAF, PENNIES};
use xg_tree::{Builder, Kind, Node, PushFault, Tree};

fn crosses_threads<T: Send + Sync>() {}

fn count(sets: &Sets) -> (u32, u32) {
    (sets.count(Player::One), sets.count(Player::Two))
}

/// Whether the player has this set, after that sequence and with so many actions.
fn is_set(sets: &Sets, player: Player, set: u32, before: u32, actions: u32) -> bool {
    1 <= set
        && set <= sets.count(player)
        && sets.before(player, set) == before
        && sets.actions(player, set) == actions
}

/// Whether the player has this set, and it begins with this node.
fn begins_with(sets: &Sets, player: Player, set: u32, node: u32) -> bool {
    1 <= set && set <= sets.count(player) && sets.first_node(player, set) == node
}

/// The next node after each node of matching pennies.
static PENNIES_NEXT: [Option<u32>; 7] = [None, Some(5), None, None, None, None, None];

/// The next node of the set of node `k`.
pub(crate) fn next_after(rt: &impl Abort, tree: &Tree, sets: &Sets, k: u32) -> Option<u32>
    requires { sets_or_break tree.now ≡ Ok sets.now }
{
    assert!(rt; 1 <= k);
    assert!(rt; k <= tree.len());
    sets.next_node(k)
}

/// The first node after which another one comes than here.
fn first_other_next(rt: &impl Abort, tree: &Tree, sets: &Sets, next: &[Option<u32>]) -> Option<u32>
    requires { sets_or_break tree.now ≡ Ok sets.now }
{
    for (next, k) in next.iter().zip(1..u32::MAX) {
        if next_after(rt, tree, sets, k) != *next {
            return Some(k);
        }
    }
    None
}

fn assert_pennies(rt: &impl Abort, alloc: Global, tree: &Tree) -> Result<(), RecallFault> {
    let sets = build_sets(alloc, tree)?;
    assert!(rt;
        count(&sets) == (1, 1)
            && is_set(&sets, Player::One, 1, 0, 2)
            && is_set(&sets, Player::Two, 1, 0, 2)
            && begins_with(&sets, Player::One, 1, 1)
            && begins_with(&sets, Player::Two, 1, 2)
            && first_other_next(rt, tree, &sets, &PENNIES_NEXT).is_none()
    );
    drop(sets);
    Ok(())
}

#[test]
fn tells_matching_pennies(rt: HostRuntime) -> Result<(), Fail> {
    let tree = tree_of(&rt, rt.alloc(), &PENNIES)?;
    let asserted = assert_pennies(&rt, rt.alloc(), &tree);
    drop(tree);
    crosses_threads::<Sets>();
    Ok(asserted?)
}

/// Player one goes up, where player two has three actions, or down, and then moves again.
static UP_OR_DOWN: [Node; 8] = [
    node!(One, 1, 2),
    node!(Two, 1, 3),
    LEAF,
    LEAF,
    LEAF,
    node!(One, 2, 2),
    LEAF,
    LEAF,
];

/// Both players' sequences at each node.
static UP_OR_DOWN_SEQUENCES: [(u32, u32); 8] = [
    (0, 0),
    (1, 0),
    (1, 1),
    (1, 2),
    (1, 3),
    (2, 0),
    (3, 0),
    (4, 0),
];

fn sequences_at(rt: &impl Abort, tree: &Tree, sets: &Sets, k: u32) -> (u32, u32)
    requires { sets_or_break tree.now ≡ Ok sets.now }
{
    assert!(rt; 1 <= k);
    assert!(rt; k <= tree.len());
    let one = sets.sequence_at(Player::One, k);
    let two = sets.sequence_at(Player::Two, k);
    (one, two)
}

/// The first node with other sequences than these.
fn first_other_node(
    rt: &impl Abort,
    tree: &Tree,
    sets: &Sets,
    sequences: &[(u32, u32)],
) -> Option<u32>
    requires { sets_or_break tree.now ≡ Ok sets.now }
{
    for (at_node, k) in sequences.iter().zip(1..u32::MAX) {
        if sequences_at(rt, tree, sets, k) != *at_node {
            return Some(k);
        }
    }
    None
}

fn assert_up_or_down(rt: &impl Abort, alloc: Global, tree: &Tree) -> Result<(), RecallFault> {
    let sets = build_sets(alloc, tree)?;
    assert!(rt; is_set(&sets, Player::One, 2, 2, 2));
    let other = first_other_node(rt, tree, &sets, &UP_OR_DOWN_SEQUENCES);
    assert_eq!(rt; other, None);
    drop(sets);
    Ok(())
}

#[test]
fn tells_the_sequences_at_nodes(rt: HostRuntime) -> Result<(), Fail> {
    let tree = tree_of(&rt, rt.alloc(), &UP_OR_DOWN)?;
    let asserted = assert_up_or_down(&rt, rt.alloc(), &tree);
    drop(tree);
    Ok(asserted?)
}

/// Why a tree has no sets.
fn fault_of(alloc: Global, tree: Tree) -> Option<RecallFault> {
    let fault = build_sets(alloc, &tree).err();
    drop(tree);
    fault
}

fn is_break(fault: Option<RecallFault>, node: u32, earlier: u32) -> bool {
    match fault {
        Some(
            RecallFault::NotRecall {
                node: at,
                earlier: before,
            },
        ) => at == node && before == earlier,
        _ => false,
    }
}

/// The driver doesn't know whether she has passed the exit.
static DRIVER: [Node; 5] = [node!(One, 1, 2), LEAF, node!(One, 1, 2), LEAF, LEAF];

#[test]
fn finds_the_first_break(rt: HostRuntime) -> Result<(), Fail> {
    let tree = tree_of(&rt, rt.alloc(), &DRIVER)?;
    assert!(rt; is_break(fault_of(rt.alloc(), tree), 3, 1));
    Ok(())
}

/// The players move in turn, each time at another set with one action.
fn put_chain(rt: &impl Abort, builder: &mut Builder) -> Result<(), PushFault> {
    for set in 1..501 {
        put(rt, builder, &[node!(One, set, 1), node!(Two, set, 1)])?;
    }
    put(rt, builder, &[LEAF])
}

fn assert_chain(rt: &impl Abort, alloc: Global, tree: &Tree) -> Result<(), RecallFault> {
    let sets = build_sets(alloc, tree)?;
    assert!(rt; count(&sets) == (500, 500) && is_set(&sets, Player::One, 500, 499, 1));
    drop(sets);
    Ok(())
}

#[test]
fn tells_a_long_chain(rt: HostRuntime) -> Result<(), Fail> {
    let mut builder = Builder::new(rt.alloc());
    let all_put = put_chain(&rt, &mut builder);
    let tree = finished(&rt, builder, all_put)?;
    let asserted = assert_chain(&rt, rt.alloc(), &tree);
    drop(tree);
    Ok(asserted?)
}

/// Hundreds of nodes of a set come after player two's first action, and one after the second.
fn put_hundreds(rt: &impl Abort, builder: &mut Builder) -> Result<(), PushFault> {
    put(rt, builder, &[node!(Two, 1, 2), node!(Chance, 1, 300)])?;
    for _ in 0..301 {
        put(rt, builder, &[node!(Two, 2, 2), LEAF, LEAF])?;
    }
    Ok(())
}

#[test]
fn compares_with_the_first_of_hundreds(rt: HostRuntime) -> Result<(), Fail> {
    let mut builder = Builder::new(rt.alloc());
    let all_put = put_hundreds(&rt, &mut builder);
    let tree = finished(&rt, builder, all_put)?;
    assert!(rt; is_break(fault_of(rt.alloc(), tree), 903, 3));
    Ok(())
}
