//! The best reply to a plan.
ghost use Rattle.std.specs.Prelude.{◌≡◌, ℕ, ◌<◌, ◌≤◌, List, length, map, pos, ◌*ℤ◌, unsigned_abs};
ghost use Rattle.def_sums.specs.Limits.{most_row};
ghost use Rattle.def_sums.specs.Sum.{nat_sum_over};
ghost use Rattle.def_plan.specs.Form.{AreInOrder, placed, player_sets, sequence_count, sequences};
ghost use Rattle.def_plan.specs.Payoff.{IsNoBetter, gain, worth};
ghost use Rattle.def_plan.specs.Plan.{IsPlan, pure_plan};
ghost use Rattle.def_plan.specs.FormRows.{player_rows, amount_of};
ghost use Rattle.def_reply.specs.Reply.{best_reply_to, choices_of, values_of};
ghost use Rattle.xg_reply.specs.Replies.{IsAttainedBound, reply_to_sums};
ghost use Rattle.xg_seq.specs.Table.{most_sequences};

use crate::sets::put_reply;
use def_tree::Player;
use xg_plan::Reply;
use xg_seq::SeqForm;

/// Makes `into` the player's best reply to a plan of the other player, with the worths of the player's sequences (von
/// Stengel 1996).
///
/// The plan is given by its leaf sums, a row for each of the player's sequences. Rows, values and worths are in player
/// one's payoff, in weights, for both players: player two's best reply has the least total.
pub fn best_reply(form: &SeqForm, player: Player, rows: &[i128], into: &mut Reply)
    requires rows { length rows.now ≡ sequence_count (player_sets form.now player) }
    requires sets { length into.old.reply.sets ≡ length (player_sets form.now player) }
    requires worths { length into.old.worths ≡ sequence_count (player_sets form.now player) }
    requires small { nat_sum_over unsigned_abs rows.now ≤ most_row }
    ensures reply { into.new.reply ≡ reply_to_sums player (amount_of rows.now) (player_sets form.now player) }
    ensures worths { let sets = player_sets form.now player in
        into.new.worths
        ≡ map (worth (amount_of rows.now) (placed sets) (values_of into.new.reply.sets)) (sequences sets) }
    ensures set_count { length into.new.reply.sets ≡ length into.old.reply.sets }
    ensures worth_count { length into.new.worths ≡ length into.old.worths }

    // No plan gains more, and that of the choices gains just the total.
    ensures bound { (root : ℕ) (plan : List ℕ) → IsPlan (player_sets form.now player) root plan
        → IsNoBetter player (gain (amount_of rows.now) (player_sets form.now player) plan)
        (pos root *ℤ into.new.reply.total) }
    ensures choices { let sets = player_sets form.now player in
        IsPlan sets 1 (pure_plan sets (choices_of into.new.reply.sets)) }
    ensures attained { let sets = player_sets form.now player in
        gain (amount_of rows.now) sets (pure_plan sets (choices_of into.new.reply.sets)) ≡ into.new.reply.total }

    // Against a plan whose leaf sums the rows are.
    ensures against { (plan : List ℕ) → rows.now ≡ player_rows form.now player plan
        → into.new.reply ≡ best_reply_to form.now player plan }
    ensures bounds { (plan : List ℕ) → rows.now ≡ player_rows form.now player plan
        → IsAttainedBound player form.now plan into.new.reply }
{
    put_rows(form, player, rows, into);
    for k in (0..form.set_count(player)).rev() {
        put_reply(form, player, k + 1, into);
    }
    put_total(into);
}

// Each sequence is worth its row as long as no set has a value.
fn put_rows(form: &SeqForm, player: Player, rows: &[i128], into: &mut Reply)
    requires rows { length rows.now ≡ sequence_count (player_sets form.now player) }
    requires worths { length into.old.worths ≡ sequence_count (player_sets form.now player) }
    ensures worths { into.new.worths ≡ rows.now }
    ensures reply { into.new.reply ≡ into.old.reply }

    // What is true of every form.
    ensures order { AreInOrder (player_sets form.now player) }
    ensures limit { sequence_count (player_sets form.now player) ≤ most_sequences }
{
    for s in 0..form.sequence_count(player) {
        into.put_worth(s, rows[s as usize]);
    }
}

fn put_total(into: &mut Reply)
    requires { 0 < length into.old.worths }
    ensures total { into.new.reply.total ≡ amount_of into.old.worths 0 }
    ensures sets { into.new.reply.sets ≡ into.old.reply.sets }
    ensures worths { into.new.worths ≡ into.old.worths }
{
    let total = into.worth(0);
    into.put_total(total);
}
