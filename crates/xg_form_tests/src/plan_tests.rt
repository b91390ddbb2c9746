//! Shares, and plans of small forms.
ghost use Rattle.std.specs.Prelude.{◌≡◌, [], ◌∷◌};
ghost use Rattle.def_plan.specs.Form.{player_sets};

use crate::made::build_form;
use std::alloc::{AllocError, Global};
use std::process::Abort;
use std::test::Fail;
use xg_plan::{Plan, Play, Player, Reply, bad_set, from_play};
use xg_seq::SeqForm;
use xg_shares::shares_into;
use xg_test_data::nodes::{ONE_OF_THREE, ONE_OF_THREE_WEIGHTS, PENNIES, PENNIES_WEIGHTS};

fn crosses_threads<T: Send + Sync>() {}

#[test]
fn deals_shares(rt: HostRuntime) -> Result<(), Fail> {
    let mut evenly = [0; 3];
    shares_into(65536, &[0, 0, 0], &mut evenly);
    let mut by_weight = evenly;
    shares_into(5, &[1, 0, 2], &mut by_weight);
    let mut many = by_weight;
    shares_into(1 << 63, &[0, 1, 2], &mut many);
    let mut all_to_one = many;
    shares_into(u64::MAX, &[0, 1 << 60, 0], &mut all_to_one);
    let mut none = [3];
    shares_into(0, &[7], &mut none);
    assert!(rt;
        evenly == [21845, 21845, 21846]
            && by_weight == [1, 0, 4]
            && many == [0, 3074457345618258602, 6148914691236517206]
            && all_to_one == [0, u64::MAX, 0]
            && none == [0]
    );
    Ok(())
}

fn assert_deal(rt: &impl Abort, alloc: Global, form: &SeqForm) -> Result<(), AllocError>
    requires { player_sets form.now Player.One ≡ record { before = 0; actions = 3 } ∷ [] }
{
    let mut play = Play::new(alloc, form, Player::One)?;
    let mut plan = Plan::new(alloc, form, Player::One)?;
    play.set(1, 21845);
    play.set(2, 21845);
    play.set(3, 21846);
    from_play(form, Player::One, &play, 1048576, &mut plan);
    assert!(rt; form.sequence_count(Player::One) == 4);
    assert!(rt; plan.weights() == [1048576, 349520, 349520, 349536].as_slice());
    Ok(())
}

#[test]
fn deals_a_set_of_three_actions(rt: HostRuntime) -> Result<(), Fail> {
    let form = build_form(&rt, rt.alloc(), &ONE_OF_THREE, &ONE_OF_THREE_WEIGHTS)?;
    let asserted = assert_deal(&rt, rt.alloc(), &form);
    drop(form);
    Ok(asserted?)
}

struct Tested {
    weights: &'static [u64],
    root: u64,
    bad_set: Option<u32>,
}

static TESTS: [Tested; 6] = [
    Tested {
        weights: &[2, 1, 1],
        root: 2,
        bad_set: None,
    },
    Tested {
        weights: &[2, 1, 2],
        root: 2,
        bad_set: Some(1),
    },
    Tested {
        weights: &[1, 1, 0],
        root: 2,
        bad_set: Some(0),
    },
    Tested {
        weights: &[0, 0, 0],
        root: 0,
        bad_set: Some(0),
    },
    // a sum beyond 64 bits
    Tested {
        weights: &[2, u64::MAX, 3],
        root: 2,
        bad_set: Some(1),
    },
    Tested {
        weights: &[2, 2],
        root: 2,
        bad_set: Some(0),
    },
];

/// The first row whose bad set is another one, counted from 0.
fn first_other_bad_set(form: &SeqForm, rows: &[Tested]) -> Option<usize> {
    for (k, row) in rows.iter().enumerate() {
        if bad_set(form, Player::One, row.root, row.weights) != row.bad_set {
            return Some(k);
        }
    }
    None
}

#[test]
fn finds_what_is_no_plan(rt: HostRuntime) -> Result<(), Fail> {
    let form = build_form(&rt, rt.alloc(), &PENNIES, &PENNIES_WEIGHTS)?;
    assert_eq!(rt; first_other_bad_set(&form, &TESTS), None);
    drop(form);
    crosses_threads::<Plan>();
    crosses_threads::<Play>();
    crosses_threads::<Reply>();
    Ok(())
}
