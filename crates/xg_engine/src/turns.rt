//! Both players' turns behind the rows of a round, on a thread each where that pays.
ghost use Rattle.def_tree.specs.declared.Player.TheVariants.{One, Two};
ghost use Rattle.xg_engine.specs.Turns.{CanTakeTurn, HasTakenTurn};

use crate::players::Learner;
use crate::source::RowSource;
use def_plus::Variant;
use std::sync::Wait;
use std::thread::{Threads, join_mut};
use xg_jobs::{RowMaker, SmallRows};
use xg_plan::Player;
use xg_seq::SeqForm;

/// By which rounds a player learns, and whether the player then goes on and plays the next one.
#[derive(Clone, Copy)]
pub(crate) struct Turn {
    pub(crate) variant: Variant,
    pub(crate) scale: u32,
    pub(crate) next: u64,
    pub(crate) goes_on: bool,
}

/// Both players learn from the rows against each other's plan, and if it goes on, play the next round, too.
pub(crate) fn take_turns<Rt: Threads + Wait + Sync, M: RowMaker>(
    source: &RowSource<'_, Rt, M>,
    turn: Turn,
    rows: &SmallRows,
    one: &mut Learner,
    two: &mut Learner,
)
    requires one { CanTakeTurn source.now.form.now One turn rows.now.one one.old }
    requires two { CanTakeTurn source.now.form.now Two turn rows.now.two two.old }
    ensures one { HasTakenTurn source.now.form.now One turn rows.now.one one.old one.new }
    ensures two { HasTakenTurn source.now.form.now Two turn rows.now.two two.old two.new }
{
    if source.has_idle_threads() {
        take_turns_side_by_side(
            source.rt,
            source.form,
            turn,
            rows.one(),
            rows.two(),
            one,
            two,
        );
    } else {
        one.take_turn(source.form, Player::One, turn, rows.one());
        two.take_turn(source.form, Player::Two, turn, rows.two());
    }
}

// Both turns, player two's by a thread of its own.
fn take_turns_side_by_side<Rt: Threads>(
    rt: &Rt,
    form: &SeqForm,
    turn: Turn,
    rows_one: &[i64],
    rows_two: &[i64],
    one: &mut Learner,
    two: &mut Learner,
)
    requires one { CanTakeTurn form.now One turn rows_one.now one.old }
    requires two { CanTakeTurn form.now Two turn rows_two.now two.old }
    ensures one { HasTakenTurn form.now One turn rows_one.now one.old one.new }
    ensures two { HasTakenTurn form.now Two turn rows_two.now two.old two.new }
{
    let mut first = ||
        requires { CanTakeTurn form.now One turn rows_one.now one.now }
        ensures { HasTakenTurn form.entry.now One turn rows_one.entry.now one.entry.now one.exit.now }
    {
        one.take_turn(form, Player::One, turn, rows_one);
    };
    let mut second = ||
        requires { CanTakeTurn form.now Two turn rows_two.now two.now }
        ensures { HasTakenTurn form.entry.now Two turn rows_two.entry.now two.entry.now two.exit.now }
    {
        two.take_turn(form, Player::Two, turn, rows_two);
    };
    join_mut(rt, &mut second, &mut first);
}
