//! The choice at each set.
ghost use Rattle.std.specs.Prelude.{◌≡◌, ◌≢◌, ℕ, ◌+◌, ◌-◌, ◌^◌, ◌<◌, ◌≤◌, ◌+ℤ◌, ◌↔◌};
ghost use Rattle.std.specs.Prelude.{All, IsTrue, length, slice_set, unsigned_abs};
ghost use Rattle.std.specs.List.{range_with_len};
ghost use Rattle.def_plan.specs.Form.{AreInOrder, player_sets, sequence_count};
ghost use Rattle.def_plan.specs.Payoff.{IsNoBetter};
ghost use Rattle.xg_reply.specs.Replies.{placed_set, reply_by};
ghost use Rattle.xg_seq.specs.Table.{most_sequences};
ghost use Rattle.def_plan.specs.FormRows.{amount_of};

use def_tree::Player;
use xg_plan::Reply;
use xg_seq::SeqForm;

// Puts the reply at a set, and adds its value to the worth of the sequence before it.
pub(crate) fn put_reply(form: &SeqForm, player: Player, set: u32, into: &mut Reply)
    requires from_one { 1 ≤ set }
    requires there { set ≤ length (player_sets form.now player) }
    requires order { AreInOrder (player_sets form.now player) }
    requires limit { sequence_count (player_sets form.now player) ≤ most_sequences }
    requires sets { length into.old.reply.sets ≡ length (player_sets form.now player) }
    requires worths { length into.old.worths ≡ sequence_count (player_sets form.now player) }
    requires small { let h = placed_set (player_sets form.now player) set in
        unsigned_abs (amount_of into.old.worths h.before +ℤ (reply_by player (amount_of into.old.worths) h).value)
        < 2 ^ 127 }
    ensures sets { into.new.reply.sets ≡ slice_set into.old.reply.sets (set - 1)
        (reply_by player (amount_of into.old.worths) (placed_set (player_sets form.now player) set)) }
    ensures worths { let h = placed_set (player_sets form.now player) set in
        into.new.worths ≡ slice_set into.old.worths h.before
        (amount_of into.old.worths h.before +ℤ (reply_by player (amount_of into.old.worths) h).value) }
{
    let h = form.place_of(player, set);
    let best = best_sequence(player, h.first, h.actions, into);
    put_choice(set, best - h.first + 1, best, into);
    add_worth(best, h.before, into);
}

// The first of a set's sequences that no other is better than.
fn best_sequence(player: Player, first: u32, actions: u32, into: &Reply) -> u32
    requires some { 1 ≤ actions }
    requires there { first + actions ≤ length into.now.worths }
    requires limit { length into.now.worths ≤ most_sequences }
    ensures from { first ≤ result }
    ensures until { result < first + actions }
    ensures best { All (λ s. IsNoBetter player (amount_of into.now.worths s) (amount_of into.now.worths result))
        (range_with_len first actions) }
    ensures earliest { (s : ℕ) → first ≤ s → s < result
        → amount_of into.now.worths s ≢ amount_of into.now.worths result }
{
    let mut best = first;
    for s in first + 1..first + actions {
        if !is_no_better(player, s, best, into) {
            best = s;
        }
    }
    best
}

fn is_no_better(player: Player, s: u32, other: u32, into: &Reply) -> bool
    requires there { s < length into.now.worths }
    requires other { other < length into.now.worths }
    ensures { IsTrue result ↔ IsNoBetter player (amount_of into.now.worths s) (amount_of into.now.worths other) }
{
    match player {
        Player::One => into.worth(s) <= into.worth(other),
        Player::Two => into.worth(s) >= into.worth(other),
    }
}

// Puts a set's choice, with the worth of the sequence that it leads to.
fn put_choice(set: u32, choice: u32, sequence: u32, into: &mut Reply)
    requires from_one { 1 ≤ set }
    requires there { set ≤ length into.old.reply.sets }
    requires sequence { sequence < length into.old.worths }
    ensures sets { into.new.reply.sets ≡ slice_set into.old.reply.sets (set - 1)
        (record { value = amount_of into.old.worths sequence; choice = choice }) }
    ensures worths { into.new.worths ≡ into.old.worths }
{
    let value = into.worth(sequence);
    into.put(set, choice, value);
}

fn add_worth(sequence: u32, before: u32, into: &mut Reply)
    requires sequence { sequence < length into.old.worths }
    requires before { before < length into.old.worths }
    requires small { unsigned_abs (amount_of into.old.worths before +ℤ amount_of into.old.worths sequence) < 2 ^ 127 }
    ensures worths { into.new.worths ≡ slice_set into.old.worths before
        (amount_of into.old.worths before +ℤ amount_of into.old.worths sequence) }
    ensures reply { into.new.reply ≡ into.old.reply }
{
    let sum = into.worth(before) + into.worth(sequence);
    into.put_worth(before, sum);
}
