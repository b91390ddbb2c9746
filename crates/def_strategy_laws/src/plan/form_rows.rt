//! The rows of a form against two lists of numbers, without workers and their history.

ghost use Rattle.std.specs.Prelude.{◌≡◌, [], ◌∷◌, pos, negsuc};
ghost use Rattle.def_plan.specs.Pennies.{pennies};
ghost use Rattle.def_plan.specs.FormRows.{rows};
ghost use Rattle.def_plan.specs.RowLaws.{LeafSumsAddAmounts, PlayerRowsAreLeafSums, RowsAddAmounts, RowsAreLeafSums};

/// There is a row for each sequence, player one's and then player two's, and each is the leaf sum of its sequence.
pub fn rows_are_leaf_sums()
    ensures { RowsAreLeafSums }
{}

/// One player's rows are the leaf sums of that player's sequences.
pub fn player_rows_are_leaf_sums()
    ensures { PlayerRowsAreLeafSums }
{}

/// A leaf sum is the sum over all leaves of what each of them adds to the sequence.
pub fn leaf_sums_add_amounts()
    ensures { LeafSumsAddAmounts }
{}

/// A row is the sum over all leaves of what each of them adds to the row.
pub fn rows_add_amounts()
    ensures { RowsAddAmounts }
{}

/// Row: matching pennies, where player one gives 1 and 2 units to the two actions, and player two 1 and 0.
pub fn rows_of_pennies()
    ensures { rows pennies (3 ∷ 1 ∷ 2 ∷ []) (1 ∷ 1 ∷ 0 ∷ [])
        ≡ pos 0 ∷ pos 1 ∷ negsuc 0 ∷ pos 0 ∷ negsuc 0 ∷ pos 1 ∷ [] }
{}
