//! The places of a player's sets.
ghost use Rattle.std.specs.Prelude.{◌≡◌, ◌+◌, ◌<◌, ◌≤◌, length, map};
ghost use Rattle.def_plan.specs.Form.{placed, player_sets, sequence_count};
ghost use Rattle.xg_seq.specs.Table.{placed_of_row};

use def_tree::Player;
use xg_seq::{SeqForm, SetPlace};

/// The place of a set, counted from 0.
pub(crate) fn place_at(form: &SeqForm, player: Player, places: &[SetPlace], k: usize) -> SetPlace
    requires all { map placed_of_row places.now ≡ placed (player_sets form.now player) }
    requires there { k < length places.now }
    ensures some { 1 ≤ result.actions }
    ensures earlier { result.before < result.first }
    ensures inside { result.first + result.actions ≤ sequence_count (player_sets form.now player) }
{
    let _count = form.sequence_count(player);
    places[k]
}
