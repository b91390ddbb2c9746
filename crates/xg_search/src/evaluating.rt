//! The evaluation of a lane.
ghost use Rattle.std.specs.Prelude.{◌≤◌, ◌≤ℤ◌};
ghost use Rattle.def_plan.specs.Form.{player_sets};
ghost use Rattle.def_plan.specs.Payoff.{IsNoBetter};
ghost use Rattle.def_tree.specs.Opponent.{opponent};
ghost use Rattle.def_tree.specs.declared.Player.TheVariants.{One, Two};
ghost use Rattle.xg_jobs.specs.Table.{HasLeavesOf};
ghost use Rattle.xg_search.specs.Ends.{IsEndOf};
ghost use Rattle.xg_search.specs.Rooms.{AreRoomsOf, IsLaneOf, IsRoomOf, IsSeatOf};

use crate::dealing::deal_sums;
use crate::keeping::offer;
use crate::lane::{Kind, Lane};
use crate::room::{Room, Rooms};
use crate::seat::Seat;
use def_tree::Player;
use xg_bracket::PlanAndReply;
use xg_jobs::JobTable;
use xg_seq::SeqForm;

/// Plays a lane's rounds up to its next evaluation, at most so many, and evaluates it. Answers how many were played.
pub(crate) fn advance_lane(
    form: &SeqForm,
    jobs: &JobTable,
    most: u32,
    lane: &mut Lane,
    rooms: &mut Rooms,
    lower: &mut PlanAndReply,
    upper: &mut PlanAndReply,
) -> u32
    requires table { HasLeavesOf form.now jobs.now }
    requires some { 1 ≤ most }
    requires lane { IsLaneOf form.now lane.old }
    requires rooms { AreRoomsOf form.now rooms.old }
    requires lower { IsEndOf form.now One lower.old }
    requires upper { IsEndOf form.now Two upper.old }
    ensures some { 1 ≤ result }
    ensures few { result ≤ most }
    ensures lane { IsLaneOf form.now lane.new }
    ensures rooms { AreRoomsOf form.now rooms.new }
    ensures lower { IsEndOf form.now One lower.new }
    ensures upper { IsEndOf form.now Two upper.new }
    ensures low { lower.old.reply.reply.total ≤ℤ lower.new.reply.reply.total }
    ensures high { upper.new.reply.reply.total ≤ℤ upper.old.reply.reply.total }
{
    let count = rounds_to_evaluation(lane.rounds).min(most);
    lane.play_rounds(form, jobs, count, rooms);
    evaluate(form, jobs, lane, rooms, lower, upper);
    count
}

// A lane is evaluated after 10 rounds, and then each time after half as many more.
fn rounds_to_evaluation(rounds: u32) -> u32
    ensures { 1 ≤ result }
{
    if rounds < 10 { 10 - rounds } else { rounds / 2 }
}

// Offers the plans of a lane's sums, and of the half-predictive lane also the newest ones.
fn evaluate(
    form: &SeqForm,
    jobs: &JobTable,
    lane: &mut Lane,
    rooms: &mut Rooms,
    lower: &mut PlanAndReply,
    upper: &mut PlanAndReply,
)
    requires table { HasLeavesOf form.now jobs.now }
    requires lane { IsLaneOf form.now lane.old }
    requires rooms { AreRoomsOf form.now rooms.old }
    requires lower { IsEndOf form.now One lower.old }
    requires upper { IsEndOf form.now Two upper.old }
    ensures lane { IsLaneOf form.now lane.new }
    ensures rooms { AreRoomsOf form.now rooms.new }
    ensures lower { IsEndOf form.now One lower.new }
    ensures upper { IsEndOf form.now Two upper.new }
    ensures low { lower.old.reply.reply.total ≤ℤ lower.new.reply.reply.total }
    ensures high { upper.new.reply.reply.total ≤ℤ upper.old.reply.reply.total }
{
    let Rooms { one, two, .. } = rooms;
    let low = offer_sums(form, jobs, Player::One, &lane.one, one, two, lower);
    let high = offer_sums(form, jobs, Player::Two, &lane.two, two, one, upper);
    lane.width = width_of(low, high);
    match lane.kind {
        Kind::Discounted => {}
        Kind::HalfPredicted => {
            let low = offer(form, jobs, Player::One, lane.one.plan.all(), two, lower);
            let high = offer(form, jobs, Player::Two, lane.two.plan.all(), one, upper);
            lane.width = lane.width.min(width_of(low, high));
        }
    }
}

// Offers the plan of a player's sums.
fn offer_sums(
    form: &SeqForm,
    jobs: &JobTable,
    player: Player,
    seat: &Seat,
    own: &mut Room,
    other: &mut Room,
    end: &mut PlanAndReply,
) -> Option<i128>
    requires table { HasLeavesOf form.now jobs.now }
    requires seat { IsSeatOf (player_sets form.now player) seat.now }
    requires own { IsRoomOf form.now player own.old }
    requires other { IsRoomOf form.now (opponent player) other.old }
    requires end { IsEndOf form.now player end.old }
    ensures own { IsRoomOf form.now player own.new }
    ensures other { IsRoomOf form.now (opponent player) other.new }
    ensures end { IsEndOf form.now player end.new }
    ensures no_worse { IsNoBetter (opponent player) end.new.reply.reply.total end.old.reply.reply.total }
{
    deal_sums(form, player, &seat.sums, &mut own.numbers);
    offer(form, jobs, player, &own.numbers, other, end)
}

// How far two bounds are apart.
fn width_of(low: Option<i128>, high: Option<i128>) -> i128 {
    match (low, high) {
        (Some(low), Some(high)) => high.saturating_sub(low),
        _ => i128::MAX,
    }
}
