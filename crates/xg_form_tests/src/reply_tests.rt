//! Best replies in small games.
ghost use Rattle.std.specs.Prelude.{◌≡◌, ◌≤◌, All, length, map, sum, unsigned_abs};
ghost use Rattle.def_plan.specs.Form.{player_sets, sequence_count};
ghost use Rattle.def_sums.specs.Limits.{most_mass, most_row};
ghost use Rattle.def_sums.specs.Sum.{nat_sum_over};

use crate::made::build_form;
use std::alloc::{AllocError, Global};
use std::process::Abort;
use std::test::Fail;
use xg_plan::Reply;
use xg_reply::{Player, best_reply};
use xg_seq::SeqForm;
use xg_test_data::nodes::{
    ONE_CHOICE, ONE_CHOICE_WEIGHTS, PENNIES, PENNIES_WEIGHTS, UNEQUAL_CHANCE,
    UNEQUAL_CHANCE_WEIGHTS,
};
use xg_tree::Node;

/// A player's best reply to these rows: its total, its choice and value at each set, and the worth of each sequence.
struct Replied {
    player: Player,
    rows: &'static [i128],
    total: i128,
    sets: &'static [(u32, i128)],
    worths: &'static [i128],
}

fn has_sets(form: &SeqForm, player: Player, reply: &Reply, sets: &[(u32, i128)]) -> bool
    requires { length reply.now.reply.sets ≡ length (player_sets form.now player) }
{
    if sets.len() != form.set_count(player) as usize {
        return false;
    }
    for k in 0..form.set_count(player) {
        let (choice, value) = sets[k as usize];
        if reply.choice(k + 1) != choice || reply.value(k + 1) != value {
            return false;
        }
    }
    true
}

fn has_worths(form: &SeqForm, player: Player, reply: &Reply, worths: &[i128]) -> bool
    requires { length reply.now.worths ≡ sequence_count (player_sets form.now player) }
{
    if worths.len() != form.sequence_count(player) as usize {
        return false;
    }
    for s in 0..form.sequence_count(player) {
        if reply.worth(s) != worths[s as usize] {
            return false;
        }
    }
    true
}

fn replies(
    rt: &impl Abort,
    alloc: Global,
    form: &SeqForm,
    row: &Replied,
) -> Result<bool, AllocError>
    requires { nat_sum_over unsigned_abs row.now.rows.now ≤ most_row }
{
    let mut reply = Reply::new(alloc, form, row.player)?;
    assert!(rt; row.rows.len() == form.sequence_count(row.player) as usize);
    best_reply(form, row.player, row.rows, &mut reply);
    Ok(
        reply.total() == row.total
            && has_sets(form, row.player, &reply, row.sets)
            && has_worths(form, row.player, &reply, row.worths),
    )
}

/// The first row with another reply, counted from 0.
fn first_other_reply(
    rt: &impl Abort,
    alloc: Global,
    form: &SeqForm,
    rows: &[Replied],
) -> Result<Option<usize>, AllocError>
    requires { All (λ row. nat_sum_over unsigned_abs row.rows.now ≤ most_row) rows.now }
{
    for (k, row) in rows.iter().enumerate() {
        if !replies(rt, alloc, form, row)? {
            return Ok(Some(k));
        }
    }
    Ok(None)
}

fn assert_replies(
    rt: &impl Abort,
    alloc: Global,
    nodes: &[Node],
    weights: &[i64],
    rows: &[Replied],
) -> Result<(), Fail>
    requires mass { sum (map unsigned_abs weights.now) ≤ most_mass }
    requires small { All (λ row. nat_sum_over unsigned_abs row.rows.now ≤ most_row) rows.now }
{
    let form = build_form(rt, alloc, nodes, weights)?;
    let other = first_other_reply(rt, alloc, &form, rows);
    drop(form);
    assert_eq!(rt; other?, None);
    Ok(())
}

// The rows are those of player one's plans (1; 0, 1) and (1048576; 524288, 524288), and of player two's (2; 1, 1) and
// (1; 0, 1).
static IN_PENNIES: [Replied; 4] = [
    Replied {
        player: Player::Two,
        rows: &[0, -1, 1],
        total: -1,
        sets: &[(1, -1)],
        worths: &[-1, -1, 1],
    },
    Replied {
        player: Player::Two,
        rows: &[0, 0, 0],
        total: 0,
        sets: &[(1, 0)],
        worths: &[0, 0, 0],
    },
    Replied {
        player: Player::One,
        rows: &[0, 0, 0],
        total: 0,
        sets: &[(1, 0)],
        worths: &[0, 0, 0],
    },
    Replied {
        player: Player::One,
        rows: &[0, -1, 1],
        total: 1,
        sets: &[(2, 1)],
        worths: &[1, -1, 1],
    },
];

#[test]
fn replies_in_matching_pennies(rt: HostRuntime) -> Result<(), Fail> {
    assert_replies(&rt, rt.alloc(), &PENNIES, &PENNIES_WEIGHTS, &IN_PENNIES)
}

// One mover: player two has no set.
static TO_ONE_MOVER: [Replied; 3] = [
    Replied {
        player: Player::Two,
        rows: &[524288],
        total: 524288,
        sets: &[],
        worths: &[524288],
    },
    Replied {
        player: Player::Two,
        rows: &[1572864],
        total: 1572864,
        sets: &[],
        worths: &[1572864],
    },
    Replied {
        player: Player::One,
        rows: &[0, 1048576, 0],
        total: 1048576,
        sets: &[(1, 1048576)],
        worths: &[1048576, 1048576, 0],
    },
];

#[test]
fn replies_where_one_player_moves(rt: HostRuntime) -> Result<(), Fail> {
    assert_replies(
        &rt,
        rt.alloc(),
        &ONE_CHOICE,
        &ONE_CHOICE_WEIGHTS,
        &TO_ONE_MOVER,
    )
}

// By the rows alone player one's first action is better at the first set; what comes after makes the second one so.
static WITH_LATER_SETS: [Replied; 3] = [
    Replied {
        player: Player::One,
        rows: &[-2, 3, 0, 12, 0],
        total: 10,
        sets: &[(2, 12), (1, 12)],
        worths: &[10, 3, 12, 12, 0],
    },
    Replied {
        player: Player::One,
        rows: &[-2, 3, 3, 0, 0],
        total: 1,
        sets: &[(1, 3), (1, 0)],
        worths: &[1, 3, 3, 0, 0],
    },
    Replied {
        player: Player::Two,
        rows: &[4, 3, -9, -9],
        total: -5,
        sets: &[(2, -9)],
        worths: &[-5, 3, -9, -9],
    },
];

#[test]
fn replies_with_later_sets(rt: HostRuntime) -> Result<(), Fail> {
    let (nodes, weights) = (&UNEQUAL_CHANCE, &UNEQUAL_CHANCE_WEIGHTS);
    assert_replies(&rt, rt.alloc(), nodes, weights, &WITH_LATER_SETS)
}
