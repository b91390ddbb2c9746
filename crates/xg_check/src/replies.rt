//! All tests of a reply.
ghost use Rattle.std.specs.Prelude.{◌≡◌, ℕ, ◌≤◌, ◌≤ℤ◌, All, length, pos, slice_index, unsigned_abs};
ghost use Rattle.def_sums.specs.Limits.{most_root};
ghost use Rattle.def_tree.specs.Opponent.{opponent};
ghost use Rattle.def_plan.specs.Form.{AreInOrder, player_sets, sequence_count};
ghost use Rattle.def_plan.specs.Payoff.{leaf_sum};
ghost use Rattle.def_cert_verdict.specs.Ranges.{most_printed};
ghost use Rattle.def_cert_verdict.specs.Verdict.{first_failing, whole_reply_tests};
ghost use Rattle.def_fraction.specs.Fraction.{most_wide};
ghost use Rattle.xg_check.specs.Views.{AreAllWithin, printed_reply};
ghost use Rattle.xg_seq.specs.Table.{most_sequences};

use crate::adding::{add_leaves, add_values};
use crate::parts::PrintedEnd;
use crate::testing::first_set_fault;
use crate::totals::total_fault;
use def_cert_verdict::TestFault;
use def_tree::Player;
use xg_seq::SeqForm;

/// The first failing test of a player's printed reply against the other player's printed numbers: of its sets in turn,
/// and then of its total. The rows are all 0, and there is room for a sum of each leaf.
///
/// All sums stay within 128 bits whatever is printed, and each leaf, each value and each action is visited once.
pub fn reply_fault(
    form: &SeqForm,
    player: Player,
    against: &[u64],
    values: &[i128],
    choices: &[u32],
    end: PrintedEnd,
    sums: &mut [i128],
    rows: &mut [i128],
) -> Option<TestFault>
    requires against { length against.now ≡ sequence_count (player_sets form.now (opponent player)) }
    requires numbers { (s : ℕ) → slice_index against.now s ≤ most_root }
    requires values { length values.now ≡ length (player_sets form.now player) }
    requires choices { length choices.now ≡ length (player_sets form.now player) }
    requires small { All (λ v. unsigned_abs v ≤ most_printed) values.now }
    requires total { unsigned_abs end.total ≤ most_wide }
    requires from_one { pos 1 ≤ℤ end.scale }
    requires scale { unsigned_abs end.scale ≤ most_wide }
    requires sums { length sums.old ≡ length form.now.leaves }
    requires rows { length rows.old ≡ sequence_count (player_sets form.now player) }
    requires none { AreAllWithin 0 rows.old }
    requires order { AreInOrder (player_sets form.now player) }
    requires limit { sequence_count (player_sets form.now player) ≤ most_sequences }
    ensures fault { result ≡ first_failing
        (whole_reply_tests player (leaf_sum player form.now.leaves against.now) (player_sets form.now player)
        (printed_reply end.total values.now choices.now) end.traced end.bound (unsigned_abs end.scale)) }
    ensures same_length { length sums.new ≡ length sums.old }
{
    add_leaves(form, player, against, sums, rows);
    add_values(form, player, values, rows);
    let fault = first_set_fault(form, player, rows, values, choices);
    if fault.is_some() {
        return fault;
    }
    total_fault(player, rows, end)
}
