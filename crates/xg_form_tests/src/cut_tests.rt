//! Rounds after which regrets are cut at 0.
ghost use Rattle.std.specs.Prelude.{◌≡◌, ◌≤◌, All, length, unsigned_abs};
ghost use Rattle.def_plan.specs.Form.{player_sets, sequence_count};
ghost use Rattle.def_sums.specs.Limits.{most_round_row};
ghost use Rattle.def_sums.specs.Sum.{nat_sum_over};

use crate::closer_tests::{
    ALL, LARGE, PART, Round, first_other_regret, first_other_unit, play_round,
};
use crate::made::build_form;
use std::alloc::{AllocError, Global};
use std::process::Abort;
use std::test::Fail;
use xg_closer::{Player, Regrets, play_into};
use xg_plan::Play;
use xg_seq::SeqForm;
use xg_test_data::nodes::{ONE_OF_THREE, ONE_OF_THREE_WEIGHTS};

/// A round, what a cut leaves of the regrets after it, and what is played by them.
struct CutRound {
    round: Round,
    left: &'static [i128],
    next: &'static [u32],
}

// Without the cuts the regrets would be 4, 0 and 3 after the second round.
static SMALL: [CutRound; 3] = [
    CutRound {
        round: Round {
            rows: &[0, 6, 2, 0],
            play: &[21_845, 21_845, 21_846],
            regrets: &[4, 0, -2],
        },
        left: &[4, 0, 0],
        next: &[ALL, 0, 0],
    },
    CutRound {
        round: Round {
            rows: &[0, 0, 0, 5],
            play: &[ALL, 0, 0],
            regrets: &[4, 0, 5],
        },
        left: &[4, 0, 5],
        next: &[29_127, 0, 36_409],
    },
    CutRound {
        round: Round {
            rows: &[0, -9, 0, 0],
            play: &[29_127, 0, 36_409],
            regrets: &[-1, 4, 9],
        },
        left: &[0, 4, 9],
        next: &[0, 20_164, 45_372],
    },
];

// Such regrets have no room in a word.
static WIDE: [CutRound; 2] = [
    CutRound {
        round: Round {
            rows: &[0, LARGE, 0, 0],
            play: &[21_845, 21_845, 21_846],
            regrets: &[LARGE - PART, -PART, -PART],
        },
        left: &[LARGE - PART, 0, 0],
        next: &[ALL, 0, 0],
    },
    CutRound {
        round: Round {
            rows: &[0, 0, LARGE, 0],
            play: &[ALL, 0, 0],
            regrets: &[LARGE - PART, LARGE, 0],
        },
        left: &[LARGE - PART, LARGE, 0],
        next: &[26_214, 39_322, 0],
    },
];

fn plays_next(
    form: &SeqForm,
    player: Player,
    regrets: &Regrets,
    play: &mut Play,
    row: &CutRound,
) -> bool
    requires as_regrets { length regrets.now.of_sequences ≡ sequence_count (player_sets form.now player) }
    requires as_play { length play.old ≡ sequence_count (player_sets form.now player) }
    ensures { length play.new ≡ length play.old }
{
    play_into(form, player, regrets, play);
    first_other_unit(form, player, play, row.next).is_none()
}

/// Plays a round, and cuts its regrets. What is played by them stays.
fn play_and_cut(
    rt: &impl Abort,
    form: &SeqForm,
    player: Player,
    regrets: &mut Regrets,
    play: &mut Play,
    row: &CutRound,
)
    requires as_regrets { length regrets.old.of_sequences ≡ sequence_count (player_sets form.now player) }
    requires as_play { length play.old ≡ sequence_count (player_sets form.now player) }
    requires small { nat_sum_over unsigned_abs row.now.round.rows.now ≤ most_round_row }
    ensures as_regrets { length regrets.new.of_sequences ≡ length regrets.old.of_sequences }
    ensures as_play { length play.new ≡ length play.old }
{
    play_round(rt, form, player, regrets, play, &row.round);
    let rounds = regrets.rounds();
    let is_next = plays_next(form, player, regrets, play, row);
    regrets.cut();
    let is_left = first_other_regret(form, player, regrets, row.left).is_none();
    let stays_next = plays_next(form, player, regrets, play, row);
    assert!(rt; is_next && is_left && stays_next && regrets.rounds() == rounds);
}

fn play_and_cut_each(
    rt: &impl Abort,
    form: &SeqForm,
    player: Player,
    regrets: &mut Regrets,
    play: &mut Play,
    rows: &[CutRound],
)
    requires as_regrets { length regrets.old.of_sequences ≡ sequence_count (player_sets form.now player) }
    requires as_play { length play.old ≡ sequence_count (player_sets form.now player) }
    requires small { All (λ row. nat_sum_over unsigned_abs row.round.rows.now ≤ most_round_row) rows.now }
    ensures as_regrets { length regrets.new.of_sequences ≡ length regrets.old.of_sequences }
    ensures as_play { length play.new ≡ length play.old }
{
    for row in rows {
        play_and_cut(rt, form, player, regrets, play, row);
    }
}

/// Small regrets, and then wide ones from the start.
fn cut_both(rt: &impl Abort, alloc: Global, form: &SeqForm) -> Result<(), AllocError> {
    let player = Player::One;
    let mut regrets = Regrets::new(alloc, form, player)?;
    let mut play = Play::new(alloc, form, player)?;
    play_and_cut_each(rt, form, player, &mut regrets, &mut play, &SMALL);
    regrets.clear();
    play_and_cut_each(rt, form, player, &mut regrets, &mut play, &WIDE);
    Ok(())
}

#[test]
fn cuts_forget_negative_regrets(rt: HostRuntime) -> Result<(), Fail> {
    let form = build_form(&rt, rt.alloc(), &ONE_OF_THREE, &ONE_OF_THREE_WEIGHTS)?;
    let cut = cut_both(&rt, rt.alloc(), &form);
    drop(form);
    Ok(cut?)
}
