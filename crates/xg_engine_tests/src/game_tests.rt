//! What sets, weights, sequence forms and plans tell of small games, worked out from their files.
ghost use Rattle.std.specs.Prelude.{◌≡◌, Ok};
ghost use Rattle.std.specs.Thread.{IsSync};
ghost use Rattle.def_sequence_form.specs.Sets.{sets_or_break};

use crate::calls::{open, read, run};
use std::alloc::Global;
use std::marker::Sync;
use std::process::Abort;
use std::sync::Wait;
use std::test::Fail;
use std::thread::Threads;
use xg_engine::{Engine, Settings};
use xg_game::{Game, Player};
use xg_jobs::PlainRows;
use xg_plan::Plan;
use xg_scale::weigh;
use xg_seq::SeqForm;
use xg_sets::{Sets, build_sets};
use xg_test_data::files::{BLUFF, TOLL, WEATHER};
use xg_tree::Tree;

/// What a game's numbers are.
#[derive(Clone, Copy, Drop)]
struct WorkedGame {
    file: &'static str,
    unit: u64,
    mass: u64,
    // of each set its first sequence, its actions and the sequence before it
    sets_one: &'static [(u32, u32, u32)],
    sets_two: &'static [(u32, u32, u32)],
    // of each leaf both players' sequences, and its weight
    leaves: &'static [(u32, u32, i64)],
    // the plans that deal each set out evenly
    plan_one: &'static [u64],
    plan_two: &'static [u64],
}

const ROWS: &[WorkedGame] = &[
    WorkedGame {
        file: WEATHER,
        unit: 40,
        mass: 90,
        sets_one: &[(1, 2, 0)],
        sets_two: &[(1, 2, 0)],
        leaves: &[
            (1, 1, 0),
            (1, 1, 0),
            (1, 1, 0),
            (1, 2, 21),
            (1, 2, 4),
            (1, 2, -20),
            (2, 1, -21),
            (2, 1, -4),
            (2, 1, 20),
            (2, 2, 0),
            (2, 2, 0),
            (2, 2, 0),
        ],
        plan_one: &[11, 5, 6],
        plan_two: &[11, 5, 6],
    },
    WorkedGame {
        file: BLUFF,
        unit: 6,
        mass: 27,
        sets_one: &[(1, 2, 0), (3, 2, 0)],
        sets_two: &[(1, 2, 0)],
        leaves: &[
            (1, 1, 5),
            (1, 2, 2),
            (2, 0, -2),
            (3, 1, -10),
            (3, 2, 4),
            (4, 0, -4),
        ],
        plan_one: &[11, 5, 6, 5, 6],
        plan_two: &[11, 5, 6],
    },
    WorkedGame {
        file: TOLL,
        unit: 12,
        mass: 55,
        sets_one: &[(1, 2, 0), (3, 2, 1)],
        sets_two: &[(1, 2, 0)],
        leaves: &[(3, 1, 20), (4, 1, -12), (1, 1, -14), (1, 2, -9), (2, 0, 0)],
        plan_one: &[11, 5, 6, 2, 3],
        plan_two: &[11, 5, 6],
    },
];

/// One round from the start plays the even plans, whose root is the scale.
const ONE_ROUND: Settings = Settings {
    rounds: 1,
    every: 1,
    scale: 11,
};

fn assert_weights(
    rt: &impl Abort,
    alloc: Global,
    game: &Game,
    row: &WorkedGame,
) -> Result<(), Fail> {
    let weights = weigh(alloc, game)?;
    assert!(rt;
        weights.unit() == row.unit
            && weights.mass() == row.mass
            && weights.leaves().len() == row.leaves.len()
    );
    for (weight, leaf) in weights.leaves().iter().zip(row.leaves) {
        assert!(rt; *weight == leaf.2);
    }
    Ok(())
}

fn assert_set(rt: &impl Abort, sets: &Sets, player: Player, set: u32, row: (u32, u32, u32)) {
    assert!(rt;
        1 <= set
            && set <= sets.count(player)
            && sets.actions(player, set) == row.1
            && sets.before(player, set) == row.2
    );
}

fn assert_sets(rt: &impl Abort, sets: &Sets, player: Player, rows: &[(u32, u32, u32)]) {
    assert!(rt; sets.count(player) as usize == rows.len());
    for (row, set) in rows.iter().zip(1..u32::MAX) {
        assert_set(rt, sets, player, set, *row);
    }
}

/// Both players' sequences at the last node, which is a leaf.
fn sequences_at_last(rt: &impl Abort, tree: &Tree, sets: &Sets) -> (u32, u32)
    requires { sets_or_break tree.now ≡ Ok sets.now }
{
    let last = tree.len();
    assert!(rt; 1 <= last);
    let one = sets.sequence_at(Player::One, last);
    let two = sets.sequence_at(Player::Two, last);
    (one, two)
}

fn are_of_last_leaf(sequences: (u32, u32), leaves: &[(u32, u32, i64)]) -> bool {
    match leaves {
        [.., leaf] => sequences == (leaf.0, leaf.1),
        [] => false,
    }
}

fn assert_tree(rt: &impl Abort, alloc: Global, tree: &Tree, row: &WorkedGame) -> Result<(), Fail> {
    let sets = build_sets(alloc, tree)?;
    assert_sets(rt, &sets, Player::One, row.sets_one);
    assert_sets(rt, &sets, Player::Two, row.sets_two);
    let at_last = sequences_at_last(rt, tree, &sets);
    assert!(rt; are_of_last_leaf(at_last, row.leaves));
    Ok(())
}

fn set_of(rt: &impl Abort, form: &SeqForm, player: Player, sequence: u32) -> u32 {
    assert!(rt; 1 <= sequence && sequence < form.sequence_count(player));
    form.set_of(player, sequence)
}

fn assert_form_set(
    rt: &impl Abort,
    form: &SeqForm,
    player: Player,
    set: u32,
    row: (u32, u32, u32),
) {
    assert!(rt;
        1 <= set
            && set <= form.set_count(player)
            && form.first_sequence(player, set) == row.0
            && form.actions_of(player, set) == row.1
            && form.parent_of(player, set) == row.2
            && set_of(rt, form, player, row.0) == set
    );
}

fn assert_form_sets(rt: &impl Abort, form: &SeqForm, player: Player, rows: &[(u32, u32, u32)]) {
    assert!(rt; form.set_count(player) as usize == rows.len());
    for (row, set) in rows.iter().zip(1..u32::MAX) {
        assert_form_set(rt, form, player, set, *row);
    }
}

fn assert_leaf(rt: &impl Abort, form: &SeqForm, z: u32, row: (u32, u32, i64)) {
    assert!(rt; 1 <= z && z <= form.leaf_count());
    let leaf = form.leaf(z);
    assert!(rt; (leaf.seq1, leaf.seq2, leaf.w) == row);
}

fn assert_leaves(rt: &impl Abort, form: &SeqForm, rows: &[(u32, u32, i64)]) {
    assert!(rt; form.leaf_count() as usize == rows.len());
    for (row, z) in rows.iter().zip(1..u32::MAX) {
        assert_leaf(rt, form, z, *row);
    }
}

fn assert_form(rt: &impl Abort, form: &SeqForm, row: &WorkedGame) {
    assert_form_sets(rt, form, Player::One, row.sets_one);
    assert_form_sets(rt, form, Player::Two, row.sets_two);
    assert!(rt;
        form.sequence_count(Player::One) as usize == row.plan_one.len()
            && form.sequence_count(Player::Two) as usize == row.plan_two.len()
    );
    assert_leaves(rt, form, row.leaves);
}

fn assert_plan(rt: &impl Abort, plan: &Plan, weights: &[u64]) {
    assert!(rt; plan.weights() == weights && weights.first() == Some(&plan.root()));
}

/// A plan of which nothing is dealt, before and after it is cleared.
fn assert_no_plan(
    rt: &impl Abort,
    alloc: Global,
    form: &SeqForm,
    count: usize,
) -> Result<(), Fail> {
    let mut plan = Plan::new(alloc, form, Player::One)?;
    plan.clear();
    assert!(rt; plan.root() == 0 && plan.weights().len() == count);
    Ok(())
}

fn assert_plans<R: Abort + Threads + Wait + Sync>(
    rt: &R,
    alloc: Global,
    engine: &mut Engine,
    row: &WorkedGame,
) -> Result<(), Fail>
    requires { IsSync R.row }
{
    run(rt, alloc, engine, ONE_ROUND, &PlainRows)?;
    match engine.sums() {
        Some(sums) => {
            assert_plan(rt, sums.0, row.plan_one);
            assert_plan(rt, sums.1, row.plan_two);
        }
        None => assert!(rt; false, "no sums"),
    }
    Ok(())
}

/// The form and the plans of an engine.
fn assert_engine<R: Abort + Threads + Wait + Sync>(
    rt: &R,
    alloc: Global,
    engine: &mut Engine,
    row: &WorkedGame,
) -> Result<(), Fail>
    requires { IsSync R.row }
{
    assert_form(rt, engine.form(), row);
    assert_no_plan(rt, alloc, engine.form(), row.plan_one.len())?;
    assert_plans(rt, alloc, engine, row)
}

fn assert_numbers<R: Abort + Threads + Wait + Sync>(
    rt: &R,
    alloc: Global,
    game: &Game,
    row: &WorkedGame,
) -> Result<(), Fail>
    requires { IsSync R.row }
{
    assert_weights(rt, alloc, game, row)?;
    assert_tree(rt, alloc, game.tree(), row)?;
    let mut engine = open(alloc, game)?;
    let asserted = assert_engine(rt, alloc, &mut engine, row);
    drop(engine);
    asserted
}

fn assert_row<R: Abort + Threads + Wait + Sync>(
    rt: &R,
    alloc: Global,
    row: &WorkedGame,
) -> Result<(), Fail>
    requires { IsSync R.row }
{
    let game = read(rt, alloc, row.file)?;
    let asserted = assert_numbers(rt, alloc, &game, row);
    drop(game);
    asserted
}

#[test]
fn numbers_of_small_games(rt: HostRuntime) -> Result<(), Fail> {
    for row in ROWS {
        assert_row(&rt, rt.alloc(), row)?;
    }
    Ok(())
}
