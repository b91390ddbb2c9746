//! The plans that are kept, each with the other player's best reply.
ghost use Rattle.std.specs.Prelude.{◌≡◌, IsTrue, length};
ghost use Rattle.def_sums.specs.Limits.{most_root};
ghost use Rattle.def_plan.specs.Form.{player_sets, sequence_count};
ghost use Rattle.def_plan.specs.Payoff.{IsNoBetter};
ghost use Rattle.def_plan.specs.Plan.{IsPlan};
ghost use Rattle.def_reply.specs.Reply.{best_reply_to};
ghost use Rattle.def_tree.specs.Opponent.{opponent};
ghost use Rattle.xg_jobs.specs.Table.{HasLeavesOf};
ghost use Rattle.xg_search.specs.Ends.{IsEndOf};
ghost use Rattle.xg_search.specs.Rooms.{IsRoomOf};

use crate::numbers::ROOT;
use crate::room::Room;
use def_tree::Player;
use xg_bracket::PlanAndReply;
use xg_jobs::JobTable;
use xg_plan::{Reply, is_plan};
use xg_reply::best_reply;
use xg_seq::SeqForm;
use xg_sides::write_rows_of;

/// The other player.
pub(crate) fn opponent_of(player: Player) -> Player
    ensures { result ≡ opponent player }
{
    match player {
        Player::One => Player::Two,
        Player::Two => Player::One,
    }
}

/// Keeps the numbers in place of a player's plan if they are a plan whose bound is better. The bound of such a plan,
/// which is the total of the other player's best reply, is the answer.
pub(crate) fn offer(
    form: &SeqForm,
    jobs: &JobTable,
    player: Player,
    numbers: &[u64],
    room: &mut Room,
    end: &mut PlanAndReply,
) -> Option<i128>
    requires table { HasLeavesOf form.now jobs.now }
    requires room { IsRoomOf form.now (opponent player) room.old }
    requires end { IsEndOf form.now player end.old }
    ensures room { IsRoomOf form.now (opponent player) room.new }
    ensures end { IsEndOf form.now player end.new }
    ensures no_worse { IsNoBetter (opponent player) end.new.reply.reply.total end.old.reply.reply.total }
{
    if !is_plan(form, player, ROOT, numbers) {
        return None;
    }
    let other = opponent_of(player);
    reply_to(form, jobs, player, numbers, room);
    let total = room.reply.total();
    if is_better(player, total, end.reply.total()) {
        keep(numbers, form.set_count(other), &room.reply, end);
    }
    Some(total)
}

/// Works out the other player's best reply to a plan.
pub(crate) fn reply_to(
    form: &SeqForm,
    jobs: &JobTable,
    player: Player,
    numbers: &[u64],
    room: &mut Room,
)
    requires table { HasLeavesOf form.now jobs.now }
    requires plan { IsPlan (player_sets form.now player) most_root numbers.now }
    requires room { IsRoomOf form.now (opponent player) room.old }
    ensures room { IsRoomOf form.now (opponent player) room.new }
    ensures reply { room.new.reply.reply ≡ best_reply_to form.now (opponent player) numbers.now }
{
    work_out(form, jobs, player, numbers, &mut room.rows, &mut room.reply);
}

fn work_out(
    form: &SeqForm,
    jobs: &JobTable,
    player: Player,
    numbers: &[u64],
    rows: &mut [i128],
    reply: &mut Reply,
)
    requires table { HasLeavesOf form.now jobs.now }
    requires plan { IsPlan (player_sets form.now player) most_root numbers.now }
    requires rows { length rows.old ≡ sequence_count (player_sets form.now (opponent player)) }
    requires sets { length reply.old.reply.sets ≡ length (player_sets form.now (opponent player)) }
    requires worths { length reply.old.worths ≡ sequence_count (player_sets form.now (opponent player)) }
    ensures reply { reply.new.reply ≡ best_reply_to form.now (opponent player) numbers.now }
    ensures sets { length reply.new.reply.sets ≡ length reply.old.reply.sets }
    ensures worths { length reply.new.worths ≡ length reply.old.worths }
{
    form.facts();
    let other = opponent_of(player);
    write_rows_of(jobs, form, other, numbers, rows);
    best_reply(form, other, rows, reply);
}

fn is_better(player: Player, total: i128, kept: i128) -> bool
    ensures { IsTrue result → IsNoBetter (opponent player) total kept }
{
    match player {
        Player::One => kept < total,
        Player::Two => total < kept,
    }
}

// Keeps the plan with the reply to it, which is one for so many sets.
fn keep(numbers: &[u64], sets: u32, reply: &Reply, end: &mut PlanAndReply)
    requires count { length numbers.now ≡ length end.old.plan }
    requires from { length reply.now.reply.sets ≡ sets }
    requires into { length end.old.reply.reply.sets ≡ sets }
    ensures plan { end.new.plan ≡ numbers.now }
    ensures reply { end.new.reply.reply ≡ reply.now.reply }
{
    end.plan.copy_weights(numbers);
    copy_reply(reply, sets, &mut end.reply);
}

/// Makes `into` the same reply at this number of sets. Takes no memory, and copies no worths.
pub(crate) fn copy_reply(reply: &Reply, sets: u32, into: &mut Reply)
    requires from { length reply.now.reply.sets ≡ sets }
    requires into { length into.old.reply.sets ≡ sets }
    ensures { into.new.reply ≡ reply.now.reply }
{
    for set in 0..sets {
        into.put(set + 1, reply.choice(set + 1), reply.value(set + 1));
    }
    into.put_total(reply.total());
}
