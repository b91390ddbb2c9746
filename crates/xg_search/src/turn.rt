//! A player's turn in a round: to learn from the other player's plan, and to make the next one.
ghost use Rattle.std.specs.Prelude.{◌≡◌, ◌<◌, length};
ghost use Rattle.def_plan.specs.Form.{player_sets, sequence_count};
ghost use Rattle.def_tree.specs.Opponent.{opponent};
ghost use Rattle.xg_jobs.specs.Table.{HasLeavesOf};

use crate::closing::{Discounted, HalfPredicted, close_sets};
use crate::dealing::deal_plan;
use crate::room::Room;
use crate::seat::Seat;
use crate::summing::{add_weighted, take_rows, take_small_rows};
use crate::weights::Weights;
use def_tree::Player;
use xg_jobs::JobTable;
use xg_seq::SeqForm;
use xg_sides::{write_rows_of, write_small_rows_of};

/// How regrets of earlier rounds count beside the newest one.
#[derive(Clone, Copy)]
pub(crate) enum Rule {
    /// They are discounted by this many parts of 2^30.
    Discounted(u32),
    /// They stay, and half of what the newest round added is expected once more.
    HalfPredicted,
}

/// What both turns of a round have in common.
#[derive(Clone, Copy)]
pub(crate) struct Turn<'a> {
    pub(crate) form: &'a SeqForm,
    pub(crate) jobs: &'a JobTable,
    pub(crate) rule: Rule,
    pub(crate) shift: u32,
    pub(crate) weight: u64,
}

impl Turn<'_> {
    ghost use Rattle.xg_search.specs.Rooms.{IsRoomOf, IsSeatOf};

    /// The player learns, and adds the plan that follows to the sums.
    pub(crate) fn take(&self, player: Player, against: &Weights, seat: &mut Seat, room: &mut Room)
        requires table { HasLeavesOf self.now.form.now self.now.jobs.now }
        requires shift { self.now.shift < 64 }
        requires against { length against.now ≡ sequence_count (player_sets self.now.form.now (opponent player)) }
        requires seat { IsSeatOf (player_sets self.now.form.now player) seat.old }
        requires room { IsRoomOf self.now.form.now player room.old }
        ensures seat { IsSeatOf (player_sets self.now.form.now player) seat.new }
        ensures room { IsRoomOf self.now.form.now player room.new }
    {
        self.take_leaf_sums(player, against, room);
        self.learn(player, seat, room);
        deal_plan(self.form, player, &seat.play, &mut seat.plan);
        add_weighted(&mut seat.sums, seat.plan.all(), self.weight);
    }

    // The worths of sequences begin with the leaf sums.
    fn take_leaf_sums(&self, player: Player, against: &Weights, room: &mut Room)
        requires table { HasLeavesOf self.now.form.now self.now.jobs.now }
        requires shift { self.now.shift < 64 }
        requires against { length against.now ≡ sequence_count (player_sets self.now.form.now (opponent player)) }
        requires room { IsRoomOf self.now.form.now player room.old }
        ensures { IsRoomOf self.now.form.now player room.new }
    {
        let numbers = against.all();
        let Turn { form, jobs, .. } = *self;
        if write_small_rows_of(jobs, form, player, numbers, &mut room.small_rows) {
            take_small_rows(player, &room.small_rows, self.shift, &mut room.worths);
        } else {
            write_rows_of(jobs, form, player, numbers, &mut room.rows);
            take_rows(player, &room.rows, self.shift, &mut room.worths);
        }
    }

    fn learn(&self, player: Player, seat: &mut Seat, room: &mut Room)
        requires seat { IsSeatOf (player_sets self.now.form.now player) seat.old }
        requires room { IsRoomOf self.now.form.now player room.old }
        ensures seat { IsSeatOf (player_sets self.now.form.now player) seat.new }
        ensures room { IsRoomOf self.now.form.now player room.new }
    {
        let Seat { regrets, play, .. } = seat;
        let Room { worths, parts, .. } = room;
        match self.rule {
            Rule::Discounted(factor) => {
                let learning = Discounted { factor };
                close_sets(self.form, player, learning, worths, regrets, parts, play);
            }
            Rule::HalfPredicted => {
                close_sets(
                    self.form,
                    player,
                    HalfPredicted,
                    worths,
                    regrets,
                    parts,
                    play,
                );
            }
        }
    }
}
