//! Rounds of regret matching that are worked out by hand.
ghost use Rattle.std.specs.Prelude.{◌≡◌, ◌≤◌, All, length, map, sum, unsigned_abs};
ghost use Rattle.def_plan.specs.Form.{player_sets, sequence_count};
ghost use Rattle.def_sums.specs.Limits.{most_mass, most_round_row};
ghost use Rattle.def_sums.specs.Sum.{nat_sum_over};

use crate::made::build_form;
use std::alloc::{AllocError, Global};
use std::process::Abort;
use std::test::Fail;
use xg_closer::{Player, Regrets, close_round, play_into};
use xg_plan::Play;
use xg_seq::SeqForm;
use xg_test_data::node;
use xg_test_data::nodes::{
    LEAF, ONE_CHOICE, ONE_CHOICE_WEIGHTS, ONE_OF_THREE, ONE_OF_THREE_WEIGHTS, PENNIES,
    PENNIES_WEIGHTS,
};
use xg_tree::{Kind, Node};

/// What a player plays in a round, and the regrets after it is closed by these rows, of the sequences from 1 on.
pub(crate) struct Round {
    pub(crate) rows: &'static [i128],
    pub(crate) play: &'static [u32],
    pub(crate) regrets: &'static [i128],
}

/// The first sequence that is played otherwise.
pub(crate) fn first_other_unit(
    form: &SeqForm,
    player: Player,
    play: &Play,
    units: &[u32],
) -> Option<u32>
    requires { length play.now ≡ sequence_count (player_sets form.now player) }
{
    let count = form.sequence_count(player);
    if units.len() != count as usize - 1 {
        return Some(count);
    }
    for s in 1..count {
        if play.of(s) != units[s as usize - 1] {
            return Some(s);
        }
    }
    None
}

/// The first sequence that has another regret.
pub(crate) fn first_other_regret(
    form: &SeqForm,
    player: Player,
    regrets: &Regrets,
    amounts: &[i128],
) -> Option<u32>
    requires { length regrets.now.of_sequences ≡ sequence_count (player_sets form.now player) }
{
    let count = form.sequence_count(player);
    if amounts.len() != count as usize - 1 {
        return Some(count);
    }
    for s in 1..count {
        if regrets.of(s) != amounts[s as usize - 1] {
            return Some(s);
        }
    }
    None
}

/// Plays a round and closes it.
pub(crate) fn play_round(
    rt: &impl Abort,
    form: &SeqForm,
    player: Player,
    regrets: &mut Regrets,
    play: &mut Play,
    round: &Round,
)
    requires as_regrets { length regrets.old.of_sequences ≡ sequence_count (player_sets form.now player) }
    requires as_play { length play.old ≡ sequence_count (player_sets form.now player) }
    requires small { nat_sum_over unsigned_abs round.now.rows.now ≤ most_round_row }
    ensures as_regrets { length regrets.new.of_sequences ≡ length regrets.old.of_sequences }
    ensures as_play { length play.new ≡ length play.old }
{
    let rounds = regrets.rounds();
    assert!(rt; rounds < 65_536 && round.rows.len() == form.sequence_count(player) as usize);
    play_into(form, player, regrets, play);
    assert_eq!(rt; first_other_unit(form, player, play, round.play), None);
    close_round(form, player, regrets, play, round.rows);
    assert!(rt; regrets.rounds() == rounds + 1);
    assert_eq!(rt;
        first_other_regret(form, player, regrets, round.regrets),
        None
    );
}

fn play_rounds(
    rt: &impl Abort,
    form: &SeqForm,
    player: Player,
    regrets: &mut Regrets,
    play: &mut Play,
    rounds: &[Round],
)
    requires as_regrets { length regrets.old.of_sequences ≡ sequence_count (player_sets form.now player) }
    requires as_play { length play.old ≡ sequence_count (player_sets form.now player) }
    requires small { All (λ round. nat_sum_over unsigned_abs round.rows.now ≤ most_round_row) rounds.now }
    ensures as_regrets { length regrets.new.of_sequences ≡ length regrets.old.of_sequences }
    ensures as_play { length play.new ≡ length play.old }
{
    for round in rounds {
        play_round(rt, form, player, regrets, play, round);
    }
}

/// A player's rounds from the start.
fn learn(
    rt: &impl Abort,
    alloc: Global,
    form: &SeqForm,
    player: Player,
    rounds: &[Round],
) -> Result<(), AllocError>
    requires { All (λ round. nat_sum_over unsigned_abs round.rows.now ≤ most_round_row) rounds.now }
{
    let mut regrets = Regrets::new(alloc, form, player)?;
    let mut play = Play::new(alloc, form, player)?;
    play_rounds(rt, form, player, &mut regrets, &mut play, rounds);
    Ok(())
}

/// A player's rounds in the form of these nodes.
fn learn_in(
    rt: &impl Abort,
    alloc: Global,
    nodes: &[Node],
    weights: &[i64],
    player: Player,
    rounds: &[Round],
) -> Result<(), Fail>
    requires mass { sum (map unsigned_abs weights.now) ≤ most_mass }
    requires small { All (λ round. nat_sum_over unsigned_abs round.rows.now ≤ most_round_row) rounds.now }
{
    let form = build_form(rt, alloc, nodes, weights)?;
    let learnt = learn(rt, alloc, &form, player, rounds);
    drop(form);
    Ok(learnt?)
}

const HALF: u32 = 32_768;

pub(crate) const ALL: u32 = 65_536;

// With plans of root 1; each player learns from the other's play of the same round.
static PENNIES_OF_ONE: [Round; 3] = [
    Round {
        rows: &[0, -1, 1],
        play: &[HALF, HALF],
        regrets: &[-1, 1],
    },
    Round {
        rows: &[0, 1, -1],
        play: &[0, ALL],
        regrets: &[1, 1],
    },
    Round {
        rows: &[0, 1, -1],
        play: &[HALF, HALF],
        regrets: &[2, 0],
    },
];

static PENNIES_OF_TWO: [Round; 3] = [
    Round {
        rows: &[0, -1, 1],
        play: &[HALF, HALF],
        regrets: &[1, -1],
    },
    Round {
        rows: &[0, -1, 1],
        play: &[ALL, 0],
        regrets: &[1, -3],
    },
    Round {
        rows: &[0, 1, -1],
        play: &[ALL, 0],
        regrets: &[1, -1],
    },
];

#[test]
fn both_learn_matching_pennies(rt: HostRuntime) -> Result<(), Fail> {
    let alloc = rt.alloc();
    let (nodes, weights) = (&PENNIES, &PENNIES_WEIGHTS);
    learn_in(&rt, alloc, nodes, weights, Player::One, &PENNIES_OF_ONE)?;
    learn_in(&rt, alloc, nodes, weights, Player::Two, &PENNIES_OF_TWO)
}

static ONE_MOVER: [Round; 2] = [
    Round {
        rows: &[0, 1_048_576, 0],
        play: &[HALF, HALF],
        regrets: &[524_288, -524_288],
    },
    Round {
        rows: &[0, 1_048_576, 0],
        play: &[ALL, 0],
        regrets: &[524_288, -1_572_864],
    },
];

static ONE_MOVER_ANEW: [Round; 1] = [Round {
    rows: &[0, 1_048_576, 0],
    play: &[HALF, HALF],
    regrets: &[524_288, -524_288],
}];

fn begin_anew(rt: &impl Abort, form: &SeqForm, player: Player, regrets: &mut Regrets)
    requires { length regrets.old.of_sequences ≡ sequence_count (player_sets form.now player) }
    ensures { length regrets.new.of_sequences ≡ length regrets.old.of_sequences }
{
    regrets.clear();
    assert!(rt; regrets.rounds() == 0);
    assert_eq!(rt; first_other_regret(form, player, regrets, &[0, 0]), None);
}

fn learn_anew(
    rt: &impl Abort,
    alloc: Global,
    form: &SeqForm,
    rounds: &[Round],
) -> Result<(), AllocError>
    requires { All (λ round. nat_sum_over unsigned_abs round.rows.now ≤ most_round_row) rounds.now }
{
    let player = Player::One;
    let mut regrets = Regrets::new(alloc, form, player)?;
    let mut play = Play::new(alloc, form, player)?;
    play_rounds(rt, form, player, &mut regrets, &mut play, rounds);
    begin_anew(rt, form, player, &mut regrets);
    play_rounds(rt, form, player, &mut regrets, &mut play, &ONE_MOVER_ANEW);
    Ok(())
}

#[test]
fn one_mover_learns_at_once(rt: HostRuntime) -> Result<(), Fail> {
    let form = build_form(&rt, rt.alloc(), &ONE_CHOICE, &ONE_CHOICE_WEIGHTS)?;
    let learnt = learn_anew(&rt, rt.alloc(), &form, &ONE_MOVER);
    drop(form);
    Ok(learnt?)
}

// The greatest size of all rows together, and of a regret, that is kept in 64 bits.
const MOST_SMALL: i128 = 1 << 62;

const HALF_OF_MOST: i128 = 1 << 61;

// The first round just fits. The second one's row has no room beside it, and the third one's has none at all.
static JUST_SMALL: [Round; 4] = [
    Round {
        rows: &[0, MOST_SMALL, 0],
        play: &[HALF, HALF],
        regrets: &[HALF_OF_MOST, -HALF_OF_MOST],
    },
    Round {
        rows: &[0, 1, 0],
        play: &[ALL, 0],
        regrets: &[HALF_OF_MOST, -HALF_OF_MOST - 1],
    },
    Round {
        rows: &[0, 0, MOST_SMALL + 1],
        play: &[ALL, 0],
        regrets: &[HALF_OF_MOST, HALF_OF_MOST],
    },
    Round {
        rows: &[0, 0, 2],
        play: &[HALF, HALF],
        regrets: &[HALF_OF_MOST - 1, HALF_OF_MOST + 1],
    },
];

// The first round's rows have no room, and later ones' have.
static NOT_SMALL: [Round; 2] = [
    Round {
        rows: &[0, MOST_SMALL, 1],
        play: &[HALF, HALF],
        regrets: &[HALF_OF_MOST, 1 - HALF_OF_MOST],
    },
    Round {
        rows: &[0, 0, 2],
        play: &[ALL, 0],
        regrets: &[HALF_OF_MOST, 3 - HALF_OF_MOST],
    },
];

#[test]
fn regrets_outgrow_a_word(rt: HostRuntime) -> Result<(), Fail> {
    let alloc = rt.alloc();
    let (nodes, weights) = (&ONE_CHOICE, &ONE_CHOICE_WEIGHTS);
    learn_in(&rt, alloc, nodes, weights, Player::One, &JUST_SMALL)?;
    learn_in(&rt, alloc, nodes, weights, Player::One, &NOT_SMALL)
}

#[test]
fn large_regrets_are_forgotten(rt: HostRuntime) -> Result<(), Fail> {
    let form = build_form(&rt, rt.alloc(), &ONE_CHOICE, &ONE_CHOICE_WEIGHTS)?;
    let learnt = learn_anew(&rt, rt.alloc(), &form, &JUST_SMALL);
    drop(form);
    Ok(learnt?)
}

// Half of -1 is rounded to -1, and half of -3 to -2.
static ODD_VALUES: [Round; 3] = [
    Round {
        rows: &[0, -1, 0],
        play: &[HALF, HALF],
        regrets: &[0, 1],
    },
    Round {
        rows: &[0, 1, 0],
        play: &[0, ALL],
        regrets: &[1, 1],
    },
    Round {
        rows: &[0, -3, 0],
        play: &[HALF, HALF],
        regrets: &[0, 3],
    },
];

#[test]
fn values_are_rounded_down(rt: HostRuntime) -> Result<(), Fail> {
    let (nodes, weights) = (&ONE_CHOICE, &ONE_CHOICE_WEIGHTS);
    learn_in(&rt, rt.alloc(), nodes, weights, Player::One, &ODD_VALUES)
}

// Of three equal actions the last has the unit that is left, and others play by their positive regrets.
static THREE_ACTIONS: [Round; 4] = [
    Round {
        rows: &[0, 0, 0, 0],
        play: &[21_845, 21_845, 21_846],
        regrets: &[0, 0, 0],
    },
    Round {
        rows: &[0, 6, 3, 0],
        play: &[21_845, 21_845, 21_846],
        regrets: &[4, 1, -2],
    },
    Round {
        rows: &[0, 0, 0, 5],
        play: &[52_428, 13_108, 0],
        regrets: &[4, 1, 3],
    },
    Round {
        rows: &[0, 0, 0, 0],
        play: &[HALF, 8_192, 24_576],
        regrets: &[4, 1, 3],
    },
];

#[test]
fn three_actions_share_all_units(rt: HostRuntime) -> Result<(), Fail> {
    let (nodes, weights) = (&ONE_OF_THREE, &ONE_OF_THREE_WEIGHTS);
    learn_in(&rt, rt.alloc(), nodes, weights, Player::One, &THREE_ACTIONS)
}

pub(crate) const LARGE: i128 = 1 << 80;

// The floor of 21845 / 65536 of it.
pub(crate) const PART: i128 = 21_845 << 64;

// The sums of such regrets need a division of 128 bits.
static LARGE_REGRETS: [Round; 4] = [
    Round {
        rows: &[0, LARGE, 0, 0],
        play: &[21_845, 21_845, 21_846],
        regrets: &[LARGE - PART, -PART, -PART],
    },
    Round {
        rows: &[0, 0, LARGE, 0],
        play: &[ALL, 0, 0],
        regrets: &[LARGE - PART, LARGE - PART, -PART],
    },
    Round {
        rows: &[0, 0, 0, LARGE],
        play: &[HALF, HALF, 0],
        regrets: &[LARGE - PART, LARGE - PART, LARGE - PART],
    },
    Round {
        rows: &[0, 0, 0, 0],
        play: &[21_845, 21_845, 21_846],
        regrets: &[LARGE - PART, LARGE - PART, LARGE - PART],
    },
];

#[test]
fn large_regrets_are_shared(rt: HostRuntime) -> Result<(), Fail> {
    let (nodes, weights) = (&ONE_OF_THREE, &ONE_OF_THREE_WEIGHTS);
    learn_in(&rt, rt.alloc(), nodes, weights, Player::One, &LARGE_REGRETS)
}

/// The first action ends the game for a payoff, and after the second one comes another choice of player one.
static TWO_CHOICES: [Node; 5] = [node!(One, 1, 2), LEAF, node!(One, 2, 2), LEAF, LEAF];

// The second set, worth 6, lies behind the second action of the first one.
static BEHIND: [Round; 2] = [
    Round {
        rows: &[0, 3, 0, 12, 0],
        play: &[HALF, HALF, HALF, HALF],
        regrets: &[-1, 2, 6, -6],
    },
    Round {
        rows: &[0, 3, 0, 12, 0],
        play: &[0, ALL, ALL, 0],
        regrets: &[-10, 2, 6, -18],
    },
];

#[test]
fn values_go_up_to_the_sequence_before(rt: HostRuntime) -> Result<(), Fail> {
    learn_in(
        &rt,
        rt.alloc(),
        &TWO_CHOICES,
        &[3, 12, 0],
        Player::One,
        &BEHIND,
    )
}

/// Player two has one action, and then two.
static FORCED_MOVE: [Node; 4] = [node!(Two, 1, 1), node!(Two, 2, 2), LEAF, LEAF];

static FORCED: [Round; 2] = [
    Round {
        rows: &[0, 0, 5, -2],
        play: &[ALL, HALF, HALF],
        regrets: &[0, -3, 4],
    },
    Round {
        rows: &[0, 0, 5, -2],
        play: &[ALL, 0, ALL],
        regrets: &[0, -10, 4],
    },
];

#[test]
fn one_action_has_all_units_and_no_regret(rt: HostRuntime) -> Result<(), Fail> {
    learn_in(
        &rt,
        rt.alloc(),
        &FORCED_MOVE,
        &[5, -2],
        Player::Two,
        &FORCED,
    )
}

// Who never moves has the empty sequence alone.
static NO_SETS: [Round; 1] = [Round {
    rows: &[7],
    play: &[],
    regrets: &[],
}];

#[test]
fn no_sets_no_regrets(rt: HostRuntime) -> Result<(), Fail> {
    let (nodes, weights) = (&ONE_CHOICE, &ONE_CHOICE_WEIGHTS);
    learn_in(&rt, rt.alloc(), nodes, weights, Player::Two, &NO_SETS)
}

fn crosses_threads<T: Send + Sync>() {}

#[test]
fn regrets_cross_threads(_rt: HostRuntime) -> Result<(), Fail> {
    crosses_threads::<Regrets>();
    Ok(())
}
