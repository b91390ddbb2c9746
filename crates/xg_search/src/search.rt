//! The search.
ghost use Rattle.std.specs.Prelude.{◌≡◌, ◌≤◌, ◌≤ℤ◌, IfOk};
ghost use Rattle.xg_jobs.specs.Table.{HasLeavesOf};

use crate::evaluating::advance_lane;
use crate::first::first_end;
use crate::lane::{Kind, Lane};
use crate::room::Rooms;
use def_tree::Player;
use std::alloc::{AllocError, Global};
use xg_bracket::PlanAndReply;
use xg_jobs::JobTable;
use xg_seq::SeqForm;

/// The search of plans that close the bracket: of each player the best plan so far, with the other player's best reply.
///
/// Both plans have the greatest root that a plan can have.
#[derive(Drop)]
pub struct Search {
    lower: PlanAndReply,
    upper: PlanAndReply,
    discounted: Lane,
    half_predicted: Lane,
    rooms: Rooms,
}

impl Search {
    ghost use Rattle.xg_search.specs.Searches.{IsSearchOf, high_of, low_of, lower_of, upper_of};

    /// Keeps the plans that play evenly. All memory is taken here.
    pub fn new(alloc: Global, form: &SeqForm, jobs: &JobTable) -> Result<Search, AllocError>
        requires table { HasLeavesOf form.now jobs.now }
        ensures { IfOk result (IsSearchOf form.now) }
    {
        let mut rooms = Rooms::new(alloc, form, jobs.mass())?;
        let lower = first_end(alloc, form, jobs, Player::One, &mut rooms.two)?;
        let upper = first_end(alloc, form, jobs, Player::Two, &mut rooms.one)?;
        Ok(Search {
            lower,
            upper,
            discounted: Lane::new(alloc, form, Kind::Discounted)?,
            half_predicted: Lane::new(alloc, form, Kind::HalfPredicted)?,
            rooms,
        })
    }

    /// Plays rounds up to the next evaluation, at most so many, evaluates, and keeps the better plans. Answers how many
    /// were played.
    pub fn advance(&mut self, form: &SeqForm, jobs: &JobTable, most: u32) -> u32
        requires search { IsSearchOf form.now self.old }
        requires table { HasLeavesOf form.now jobs.now }
        requires some { 1 ≤ most }
        ensures search { IsSearchOf form.now self.new }
        ensures some { 1 ≤ result }
        ensures few { result ≤ most }

        // The bracket never widens.
        ensures low { low_of self.old ≤ℤ low_of self.new }
        ensures high { high_of self.new ≤ℤ high_of self.old }
    {
        let Search {
            lower,
            upper,
            discounted,
            half_predicted,
            rooms,
        } = self;
        if is_next(discounted, half_predicted) {
            advance_lane(form, jobs, most, discounted, rooms, lower, upper)
        } else {
            advance_lane(form, jobs, most, half_predicted, rooms, lower, upper)
        }
    }

    /// The total of player two's best reply to the plan of player one that is kept.
    pub fn low(&self) -> i128
        ensures { result ≡ low_of self.now }
    {
        self.lower.reply.total()
    }

    /// The total of player one's best reply to the plan of player two that is kept.
    pub fn high(&self) -> i128
        ensures { result ≡ high_of self.now }
    {
        self.upper.reply.total()
    }

    /// The plans that are kept, each with the best reply to it, player one's first.
    pub fn into_ends(self) -> (PlanAndReply, PlanAndReply)
        ensures lower { result.0 ≡ lower_of self }
        ensures upper { result.1 ≡ upper_of self }
    {
        let Search {
            lower,
            upper,
            discounted,
            half_predicted,
            rooms,
        } = self;
        drop(discounted);
        drop(half_predicted);
        drop(rooms);
        (lower, upper)
    }
}

// Whether the first lane goes on: the one whose own bounds are narrower does, unless it has more than four times as
// many rounds as the other.
fn is_next(first: &Lane, second: &Lane) -> bool {
    if first.rounds == 0 || second.rounds == 0 {
        return first.rounds == 0;
    }
    if second.width < first.width {
        is_ahead(second.rounds, first.rounds)
    } else {
        !is_ahead(first.rounds, second.rounds)
    }
}

fn is_ahead(rounds: u32, others: u32) -> bool {
    u64::from(rounds) > 4 * u64::from(others)
}
