//! The sums of a plan.
ghost use Rattle.std.specs.Prelude.{◌≡◌, ◌≤◌, length, slice_index};
ghost use Rattle.def_plan.specs.Form.{placed, player_sets, sequence_count};
ghost use Rattle.def_plan.specs.Plan.{first_not_adding};

use def_tree::Player;
use xg_plan::bad_set;
use xg_seq::SeqForm;

/// The first set, counted from 1, whose sequences' numbers don't add up to that of the sequence before it.
pub fn first_not_adding(form: &SeqForm, player: Player, numbers: &[u64]) -> Option<u32>
    requires all_sequences { length numbers.now ≡ sequence_count (player_sets form.now player) }
    requires some_root { 1 ≤ slice_index numbers.now 0 }
    ensures { result ≡ first_not_adding numbers.now 1 (placed (player_sets form.now player)) }
{
    bad_set(form, player, numbers[0], numbers)
}
