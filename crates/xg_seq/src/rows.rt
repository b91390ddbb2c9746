//! The table of a player's sets, from the sets of the tree.
ghost use Rattle.std.specs.Prelude.{◌≡◌, ◌^◌, ◌<◌, ◌≤◌, length, IfOk, map};
ghost use Rattle.def_plan.specs.Form.{AreInOrder, placed, sequence_count};
ghost use Rattle.xg_sets.specs.OfPlayer.{of_player};
ghost use Rattle.xg_seq.specs.Table.{HaveFewActions, most_sequences, set_numbers_from, placed_of_row};

use crate::table::{SetPlace, SetPlaces};
use def_tree::Player;
use std::alloc::{AllocError, Global};
use xg_sets::Sets;

/// The table of a player's sets.
pub(crate) fn table_of(alloc: Global, sets: &Sets, player: Player) -> Result<SetPlaces, AllocError>
    requires order { AreInOrder (of_player player sets.now).sets }
    requires limit { sequence_count (of_player player sets.now).sets ≤ most_sequences }
    requires few_actions { HaveFewActions (of_player player sets.now).sets }
    ensures { IfOk result (λ table. table ≡ (of_player player sets.now).sets) }
{
    let rows = rows_of(alloc, sets, player)?;
    let set_numbers = set_numbers_of(alloc, &rows)?;
    Ok(SetPlaces::of(rows, set_numbers))
}

// The player's sets, each placed after the one before it.
fn rows_of(alloc: Global, sets: &Sets, player: Player) -> Result<Vec<SetPlace>, AllocError>
    requires { sequence_count (of_player player sets.now).sets ≤ most_sequences }
    ensures { IfOk result (λ rows. map placed_of_row rows.items ≡ placed (of_player player sets.now).sets) }
{
    let mut rows = Vec::new(alloc);
    let mut first = 1;
    for set in 0..sets.count(player) {
        let actions = sets.actions(player, set + 1);
        rows.push(SetPlace {
            first,
            before: sets.before(player, set + 1),
            actions,
        })?;
        first += actions;
    }
    Ok(rows)
}

// For each sequence from 1 on the number of its set.
fn set_numbers_of(alloc: Global, rows: &[SetPlace]) -> Result<Vec<u32>, AllocError>
    requires { length rows.now < 2 ^ 32 }
    ensures { IfOk result (λ numbers. numbers.items ≡ set_numbers_from 1 rows.now) }
{
    let mut set_numbers = Vec::new(alloc);
    for (i, row) in rows.iter().enumerate() {
        for _ in 0..row.actions {
            set_numbers.push(i as u32 + 1)?;
        }
    }
    Ok(set_numbers)
}
