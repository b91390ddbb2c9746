//! The tests of a player's sets.
ghost use Rattle.std.specs.Prelude.{◌≡◌, ◌+◌, ◌-◌, ◌<◌, ◌≤◌, length, nat_le, ◌&&◌};
ghost use Rattle.std.specs.Ordering.{int_eq};
ghost use Rattle.def_plan.specs.Form.{placed, player_sets, sequence_count};
ghost use Rattle.def_cert_verdict.specs.Verdict.{first_failing, is_better, reply_tests, set_tests};
ghost use Rattle.xg_check.specs.Views.{reply_of, row};
ghost use Rattle.xg_plan.specs.Reply.{set_replies};
ghost use Rattle.xg_seq.specs.Table.{placed_of_row};

use crate::parts::{SetReply, reply_at};
use def_cert_verdict::TestFault;
use def_tree::Player;
use xg_seq::{SeqForm, SetPlace};

fn is_better(player: Player, rows: &[i128], s: usize, reply: SetReply) -> bool
    requires { s < length rows.now }
    ensures { result ≡ is_better player (row rows.now s) reply.value }
{
    match player {
        Player::One => reply.value < rows[s],
        Player::Two => rows[s] < reply.value,
    }
}

// Whether the choice is an action of the set that is worth the set's value.
fn is_reached(rows: &[i128], h: SetPlace, reply: SetReply) -> bool
    requires { h.first + h.actions ≤ length rows.now }
    ensures { result ≡ ((nat_le 1 reply.choice && nat_le reply.choice h.actions)
        && int_eq (row rows.now (h.first + (reply.choice - 1))) reply.value) }
{
    1 <= reply.choice
        && reply.choice <= h.actions
        && rows[h.first as usize + (reply.choice as usize - 1)] == reply.value
}

// The first test of a set that fails.
fn set_fault(
    player: Player,
    rows: &[i128],
    set: u32,
    h: SetPlace,
    reply: SetReply,
) -> Option<TestFault>
    requires { h.first + h.actions ≤ length rows.now }
    ensures { result ≡ first_failing (set_tests player (row rows.now) set (placed_of_row h) (reply_of reply)) }
{
    for a in 0..h.actions {
        if is_better(player, rows, h.first as usize + a as usize, reply) {
            return Some(TestFault::ValueTooGood {
                player,
                set,
                action: a + 1,
            });
        }
    }
    if is_reached(rows, h, reply) {
        return None;
    }
    Some(TestFault::ReplyNotTight { player, set })
}

/// The first test of the player's sets that fails, where the rows are the worths of the player's sequences.
pub(crate) fn first_set_fault(
    form: &SeqForm,
    player: Player,
    rows: &[i128],
    values: &[i128],
    choices: &[u32],
) -> Option<TestFault>
    requires values { length values.now ≡ length (player_sets form.now player) }
    requires choices { length choices.now ≡ length (player_sets form.now player) }
    requires rows { length rows.now ≡ sequence_count (player_sets form.now player) }
    ensures { result ≡ first_failing
        (reply_tests player (row rows.now) 1 (placed (player_sets form.now player))
        (set_replies values.now choices.now)) }
{
    for k in 0..form.set_count(player) {
        let h = form.place_of(player, k + 1);
        let reply = reply_at(values, choices, k as usize);
        let fault = set_fault(player, rows, k + 1, h, reply);
        if fault.is_some() {
            return fault;
        }
    }
    None
}
