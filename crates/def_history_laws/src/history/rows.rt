//! The rows of a form by its jobs: the jobs' amounts at them, and what their history leaves there.

ghost use Rattle.std.specs.Prelude.{◌≡◌, [], ◌∷◌, map, pos, negsuc};
ghost use Rattle.std.specs.List.{range_with_len};
ghost use Rattle.def_plan.specs.Pennies.{pennies};
ghost use Rattle.def_history.specs.Leaves.{amounts};
ghost use Rattle.def_history.specs.JobRows.{leaf_amount};
ghost use Rattle.def_history.specs.JobPackets.{TouchedRowsAreExact, TouchedRowsMakePackets, packet_of};
ghost use Rattle.def_history.specs.RowLaws.{AmountsAreSmall, JobsHaveTheirLeafSums, ReplaysEndAsRows};
ghost use Rattle.def_history.specs.RowLaws.{RowsSumOverLeaves};

/// At each row the plain sum over all leaves is the leaf sum of the row's sequence.
pub fn rows_sum_over_leaves()
    ensures { RowsSumOverLeaves }
{}

/// A job's amounts are the leaf sums over its own leaves.
pub fn jobs_have_their_leaf_sums()
    ensures { JobsHaveTheirLeafSums }
{}

/// With the bag empty and no right held, each row's replay is the leaf sum of the row's sequence.
pub fn replays_end_as_rows()
    ensures { ReplaysEndAsRows }
{}

/// At each row the sizes of all jobs' amounts are together at most the mass times the greatest number of the plans.
pub fn amounts_are_small()
    ensures { AmountsAreSmall }
{}

/// A job touches exactly the rows whose sequence some leaf of it has.
pub fn touched_rows_are_exact()
    ensures { TouchedRowsAreExact }
{}

/// A job's amounts at the rows that it touches are its packet: at every other row its amount is 0.
pub fn touched_rows_make_packets()
    ensures { TouchedRowsMakePackets }
{}

/// Row: the packet of the one job of matching pennies, where both plans give their one unit to the second action.
pub fn packet_of_pennies()
    ensures { packet_of pennies (1 ∷ 0 ∷ 1 ∷ []) (1 ∷ 0 ∷ 1 ∷ []) (record { first = 0; count = 4 })
        ≡ record { row = 1; amount = negsuc 0 } ∷ record { row = 2; amount = pos 1 }
        ∷ record { row = 4; amount = negsuc 0 }
        ∷ record { row = 5; amount = pos 1 } ∷ [] }
{}

/// Row: the amounts of the one job of matching pennies at all rows, where both plans give their one unit to the second
/// action.
pub fn amounts_of_pennies()
    ensures { let amount = amounts (leaf_amount pennies (1 ∷ 0 ∷ 1 ∷ []) (1 ∷ 0 ∷ 1 ∷ []))
        (record { first = 0; count = 4 } ∷ []) in
        map (amount 0) (range_with_len 0 6)
        ≡ pos 0 ∷ negsuc 0 ∷ pos 1 ∷ pos 0 ∷ negsuc 0 ∷ pos 1 ∷ [] }
{}
