//! The plans that are kept before the first round.
ghost use Rattle.std.specs.Prelude.{◌≡◌, IfOk, length};
ghost use Rattle.def_sums.specs.Limits.{most_root, most_scale};
ghost use Rattle.def_plan.specs.Form.{player_sets};
ghost use Rattle.def_plan.specs.Plan.{IsPlan};
ghost use Rattle.def_tree.specs.Opponent.{opponent};
ghost use Rattle.xg_jobs.specs.Table.{HasLeavesOf};
ghost use Rattle.xg_search.specs.Ends.{IsEndOf};
ghost use Rattle.xg_search.specs.Rooms.{IsRoomOf};

use crate::keeping::{copy_reply, opponent_of, reply_to};
use crate::room::Room;
use def_sums::{MOST_ROUNDS, MOST_SCALE};
use def_tree::Player;
use std::alloc::{AllocError, Global};
use xg_bracket::PlanAndReply;
use xg_closer::{Regrets, play_into};
use xg_jobs::JobTable;
use xg_plan::{Plan, Play, Reply, add_times, from_play};
use xg_seq::SeqForm;

// How many plans of the greatest scale are added to one, so that the sum has the greatest root.
const MORE_TIMES: u64 = MOST_ROUNDS as u64 - 1;

/// A player's plan that plays evenly, with the other player's best reply.
pub(crate) fn first_end(
    alloc: Global,
    form: &SeqForm,
    jobs: &JobTable,
    player: Player,
    room: &mut Room,
) -> Result<PlanAndReply, AllocError>
    requires table { HasLeavesOf form.now jobs.now }
    requires room { IsRoomOf form.now (opponent player) room.old }
    ensures end { IfOk result (IsEndOf form.now player) }
    ensures room { IsRoomOf form.now (opponent player) room.new }
{
    let plan = even_plan(alloc, form, player)?;
    let other = opponent_of(player);
    let reply = Reply::new(alloc, form, other)?;
    reply_to(form, jobs, player, plan.weights(), room);
    let mut end = PlanAndReply { plan, reply };
    copy_reply(&room.reply, form.set_count(other), &mut end.reply);
    Ok(end)
}

// The plan of the greatest root that plays evenly.
fn even_plan(alloc: Global, form: &SeqForm, player: Player) -> Result<Plan, AllocError>
    ensures { IfOk result (IsPlan (player_sets form.now player) most_root) }
{
    let part = even_part(alloc, form, player)?;
    let mut plan = Plan::new(alloc, form, player)?;
    enlarge(form, player, &part, &mut plan);
    Ok(plan)
}

// The plan of the greatest scale that plays evenly.
fn even_part(alloc: Global, form: &SeqForm, player: Player) -> Result<Plan, AllocError>
    ensures { IfOk result (IsPlan (player_sets form.now player) most_scale) }
{
    let regrets = Regrets::new(alloc, form, player)?;
    let mut play = Play::new(alloc, form, player)?;
    play_into(form, player, &regrets, &mut play);
    let mut plan = Plan::new(alloc, form, player)?;
    from_play(form, player, &play, MOST_SCALE as u64, &mut plan);
    Ok(plan)
}

// Makes a plan of the greatest root from one of the greatest scale.
fn enlarge(form: &SeqForm, player: Player, part: &Plan, plan: &mut Plan)
    requires part { IsPlan (player_sets form.now player) most_scale part.now }
    requires count { length plan.old ≡ length part.now }
    ensures { IsPlan (player_sets form.now player) most_root plan.new }
{
    form.facts();
    plan.copy_from(part);
    add_times(plan, part, MORE_TIMES);
}
