//! Sets, sequences and leaves of the forms of small trees.
use crate::made::build_form;
use std::test::Fail;
use xg_seq::{Leaf, Player, SeqForm};
use xg_test_data::nodes::{PENNIES, PENNIES_WEIGHTS, UNEQUAL_CHANCE, UNEQUAL_CHANCE_WEIGHTS};

fn crosses_threads<T: Send + Sync>() {}

fn has_counts(form: &SeqForm, player: Player, sets: u32, sequences: u32) -> bool {
    form.set_count(player) == sets && form.sequence_count(player) == sequences
}

/// A set by its first sequence, its actions and the sequence before it.
fn is_set(form: &SeqForm, player: Player, set: u32, row: (u32, u32, u32)) -> bool {
    1 <= set
        && set <= form.set_count(player)
        && form.first_sequence(player, set) == row.0
        && form.actions_of(player, set) == row.1
        && form.parent_of(player, set) == row.2
}

/// Whether a sequence ends at this set.
fn is_of_set(form: &SeqForm, player: Player, sequence: u32, set: u32) -> bool {
    1 <= sequence && sequence < form.sequence_count(player) && form.set_of(player, sequence) == set
}

fn is_leaf(form: &SeqForm, z: u32, leaf: (u32, u32, i64)) -> bool {
    if z < 1 || form.leaf_count() < z {
        return false;
    }
    let Leaf { seq1, seq2, w } = form.leaf(z);
    (seq1, seq2, w) == leaf
}

/// The first leaf that isn't as told here: both players' sequences, and the weight.
fn first_other_leaf(form: &SeqForm, leaves: &[(u32, u32, i64)]) -> Option<u32> {
    for (leaf, z) in leaves.iter().zip(1..u32::MAX) {
        if !is_leaf(form, z, *leaf) {
            return Some(z);
        }
    }
    None
}

static PENNIES_LEAVES: [(u32, u32, i64); 4] = [(1, 1, 1), (1, 2, -1), (2, 1, -1), (2, 2, 1)];

fn has_one_set(form: &SeqForm, player: Player) -> bool {
    has_counts(form, player, 1, 3)
        && is_set(form, player, 1, (1, 2, 0))
        && is_of_set(form, player, 2, 1)
}

#[test]
fn builds_matching_pennies(rt: HostRuntime) -> Result<(), Fail> {
    let form = build_form(&rt, rt.alloc(), &PENNIES, &PENNIES_WEIGHTS)?;
    assert!(rt;
        has_one_set(&form, Player::One) && has_one_set(&form, Player::Two) && form.leaf_count() == 4
    );
    assert_eq!(rt; first_other_leaf(&form, &PENNIES_LEAVES), None);
    drop(form);
    crosses_threads::<SeqForm>();
    crosses_threads::<Leaf>();
    Ok(())
}

static UNEQUAL_CHANCE_LEAVES: [(u32, u32, i64); 6] = [
    (0, 0, -2),
    (1, 1, 3),
    (1, 2, 6),
    (1, 3, -9),
    (3, 0, 12),
    (4, 0, 0),
];

#[test]
fn builds_a_game_with_an_unequal_chance(rt: HostRuntime) -> Result<(), Fail> {
    let form = build_form(&rt, rt.alloc(), &UNEQUAL_CHANCE, &UNEQUAL_CHANCE_WEIGHTS)?;
    assert!(rt;
        has_counts(&form, Player::One, 2, 5)
            && has_counts(&form, Player::Two, 1, 4)
            && is_set(&form, Player::One, 2, (3, 2, 2))
            && is_of_set(&form, Player::One, 3, 2)
            && form.leaf_count() == 6
    );
    assert_eq!(rt; first_other_leaf(&form, &UNEQUAL_CHANCE_LEAVES), None);
    drop(form);
    Ok(())
}
