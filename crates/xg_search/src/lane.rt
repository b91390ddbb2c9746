//! A lane of rounds.
ghost use Rattle.std.specs.Prelude.{◌≤◌, IfOk};
ghost use Rattle.def_plan.specs.Form.{SequenceForm};
ghost use Rattle.xg_jobs.specs.Table.{HasLeavesOf};

use crate::factor::{discount, weight_of_round};
use crate::room::Rooms;
use crate::seat::Seat;
use crate::summing::fade;
use crate::turn::{Rule, Turn};
use def_tree::Player;
use std::alloc::{AllocError, Global};
use xg_jobs::JobTable;
use xg_seq::SeqForm;

/// How a lane plays its rounds.
#[derive(Clone, Copy)]
pub(crate) enum Kind {
    /// Regrets are discounted, and plans weigh the squares of their rounds.
    Discounted,
    /// The newest regrets are expected to come half again, and plans weigh the fourth powers of their rounds.
    HalfPredicted,
}

/// Rounds in which the players learn in turn, each from the other's newest plan.
#[derive(Drop)]
pub(crate) struct Lane {
    pub(crate) kind: Kind,
    pub(crate) rounds: u32,
    // how far the bounds of the lane's own newest evaluation are apart
    pub(crate) width: i128,
    pub(crate) one: Seat,
    pub(crate) two: Seat,
}

impl Kind {
    fn power(self) -> u32
        ensures { result ≤ 4 }
    {
        match self {
            Kind::Discounted => 2,
            Kind::HalfPredicted => 4,
        }
    }

    fn rule(self, earlier: u32) -> Rule {
        match self {
            Kind::Discounted => Rule::Discounted(discount(earlier)),
            Kind::HalfPredicted => Rule::HalfPredicted,
        }
    }
}

impl Lane {
    ghost use Rattle.xg_search.specs.Rooms.{AreRoomsOf, IsLaneOf};

    /// A lane before its first round.
    pub(crate) fn new(alloc: Global, form: &SeqForm, kind: Kind) -> Result<Lane, AllocError>
        ensures { IfOk result (IsLaneOf form.now) }
    {
        Ok(Lane {
            kind,
            rounds: 0,
            width: i128::MAX,
            one: Seat::new(alloc, form, Player::One)?,
            two: Seat::new(alloc, form, Player::Two)?,
        })
    }

    /// Plays so many rounds.
    pub(crate) fn play_rounds(
        &mut self,
        form: &SeqForm,
        jobs: &JobTable,
        count: u32,
        rooms: &mut Rooms,
    )
        requires table { HasLeavesOf form.now jobs.now }
        requires lane { IsLaneOf form.now self.old }
        requires rooms { AreRoomsOf form.now rooms.old }
        ensures lane { IsLaneOf form.now self.new }
        ensures rooms { AreRoomsOf form.now rooms.new }
    {
        for _ in 0..count {
            self.play_round(form, jobs, rooms);
        }
    }

    fn play_round(&mut self, form: &SeqForm, jobs: &JobTable, rooms: &mut Rooms)
        requires table { HasLeavesOf form.now jobs.now }
        requires lane { IsLaneOf form.now self.old }
        requires rooms { AreRoomsOf form.now rooms.old }
        ensures lane { IsLaneOf form.now self.new }
        ensures rooms { AreRoomsOf form.now rooms.new }
    {
        let rule = self.kind.rule(self.rounds);
        self.rounds = self.rounds.saturating_add(1);
        self.fade_sums();
        let turn = Turn {
            form,
            jobs,
            rule,
            shift: rooms.shift,
            weight: weight_of_round(self.rounds, self.kind.power()),
        };
        turn.take(Player::One, &self.two.plan, &mut self.one, &mut rooms.one);
        turn.take(Player::Two, &self.one.plan, &mut self.two, &mut rooms.two);
    }

    // At each doubling of the rounds the sums are divided by what the weights of rounds are multiplied by.
    fn fade_sums(&mut self)
        ensures { (form : SequenceForm) → IsLaneOf form self.old → IsLaneOf form self.new }
    {
        if self.rounds > 1 && self.rounds.is_power_of_two() {
            let bits = self.kind.power();
            fade(&mut self.one.sums, bits);
            fade(&mut self.two.sums, bits);
        }
    }
}
