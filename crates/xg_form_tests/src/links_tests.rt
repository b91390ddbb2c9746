//! The links of small games: from node to node in the tree and in a set, and from leaf to leaf of a sequence.
ghost use Rattle.std.specs.Prelude.{◌≡◌, IfOk, Ok, map, sum, unsigned_abs};
ghost use Rattle.def_sequence_form.specs.Sets.{sets_or_break};

use crate::made::{build_form, tree_of};
use crate::sets_tests::next_after;
use std::alloc::{AllocError, Global};
use std::process::Abort;
use std::test::Fail;
use xg_seq::SeqForm;
use xg_sets::{Player, RecallFault, Sets, build_sets};
use xg_test_data::linked::{LINKED_GAMES, LinkedGame, PlayerLinks};
use xg_tree::Tree;

/// The number at a place of a list, or none that a link has.
fn at(numbers: &[u32], place: u32) -> u32 {
    match numbers.get(place as usize) {
        Some(number) => *number,
        None => u32::MAX,
    }
}

/// The number that a link leads to, 0 for none.
fn number(link: Option<u32>) -> u32 {
    link.unwrap_or(0)
}

/// Whether the node behind so many others has the game's links.
fn has_links(tree: &Tree, before: u32, game: &LinkedGame) -> bool {
    if before >= tree.len() {
        return false;
    }
    let k = before + 1;
    number(tree.parent(k)) == at(game.parents, before)
        && number(tree.first_child(k)) == at(game.first_children, before)
        && number(tree.next_sibling(k)) == at(game.next_siblings, before)
}

/// The first node with other links than the game's.
fn first_other_node(tree: &Tree, game: &LinkedGame) -> Option<u32> {
    for before in 0..tree.len() {
        if !has_links(tree, before, game) {
            return Some(before + 1);
        }
    }
    None
}

/// The first of the player's sets that begins at another node.
fn first_other_set(sets: &Sets, player: Player, links: &PlayerLinks) -> Option<u32> {
    for before in 0..sets.count(player) {
        if sets.first_node(player, before + 1) != at(links.first_nodes, before) {
            return Some(before + 1);
        }
    }
    None
}

/// The first node of which another one is the next of its set.
fn first_other_next(rt: &impl Abort, tree: &Tree, sets: &Sets, game: &LinkedGame) -> Option<u32>
    requires { sets_or_break tree.now ≡ Ok sets.now }
{
    for before in 0..tree.len() {
        if number(next_after(rt, tree, sets, before + 1)) != at(game.next_nodes, before) {
            return Some(before + 1);
        }
    }
    None
}

fn assert_sets(
    rt: &impl Abort,
    alloc: Global,
    tree: &Tree,
    game: &LinkedGame,
) -> Result<(), RecallFault> {
    let sets = build_sets(alloc, tree)?;
    assert!(rt;
        first_other_set(&sets, Player::One, &game.one) == None
            && first_other_set(&sets, Player::Two, &game.two) == None
            && first_other_next(rt, tree, &sets, game) == None
    );
    drop(sets);
    Ok(())
}

/// The first of the player's sequences that has another first leaf.
fn first_other_sequence(form: &SeqForm, player: Player, links: &PlayerLinks) -> Option<u32> {
    for sequence in 0..form.sequence_count(player) {
        if number(form.first_leaf(player, sequence)) != at(links.first_leaves, sequence) {
            return Some(sequence);
        }
    }
    None
}

/// The first leaf after which another one is the next of the player's sequence.
fn first_other_leaf(form: &SeqForm, player: Player, links: &PlayerLinks) -> Option<u32> {
    for before in 0..form.leaf_count() {
        if number(form.next_leaf(player, before + 1)) != at(links.next_leaves, before) {
            return Some(before + 1);
        }
    }
    None
}

fn has_threads(form: &SeqForm, player: Player, links: &PlayerLinks) -> bool {
    first_other_sequence(form, player, links) == None
        && first_other_leaf(form, player, links) == None
}

fn assert_game(rt: &impl Abort, alloc: Global, game: &LinkedGame) -> Result<(), Fail> {
    let tree = tree_of(rt, alloc, game.nodes)?;
    let other = first_other_node(&tree, game);
    let asserted = assert_sets(rt, alloc, &tree, game);
    drop(tree);
    assert_eq!(rt; other, None);
    Ok(asserted?)
}

/// A weight of zero for each of so many leaves.
#[tactic(auto, using(crate::proofs::ZeroWeights::zeros_have_no_mass))]
fn zeros(alloc: Global, count: usize) -> Result<Vec<i64>, AllocError>
    ensures { IfOk result (λ zeros. sum (map unsigned_abs zeros.items) ≡ 0) }
{
    vec![in alloc; 0; count]
}

fn assert_threads(rt: &impl Abort, alloc: Global, game: &LinkedGame) -> Result<(), Fail> {
    let weights = zeros(alloc, game.one.next_leaves.len())?;
    let form = build_form(rt, alloc, game.nodes, &weights)?;
    let one = has_threads(&form, Player::One, &game.one);
    let two = has_threads(&form, Player::Two, &game.two);
    drop(form);
    assert!(rt; one && two);
    Ok(())
}

#[test]
fn small_games_have_their_links(rt: HostRuntime) -> Result<(), Fail> {
    for game in &LINKED_GAMES {
        assert_game(&rt, rt.alloc(), game)?;
    }
    Ok(())
}

#[test]
fn small_games_have_their_threads(rt: HostRuntime) -> Result<(), Fail> {
    for game in &LINKED_GAMES {
        assert_threads(&rt, rt.alloc(), game)?;
    }
    Ok(())
}
