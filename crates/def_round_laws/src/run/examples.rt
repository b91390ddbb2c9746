//! The replies, the traces and the brackets of example games.

ghost use Rattle.std.specs.Prelude.{◌≡◌, [], ◌∷◌, pos, negsuc, ◌*◌, ◌*ℤ◌};
ghost use Rattle.def_tree.specs.declared.Player.TheVariants.{One, Two};
ghost use Rattle.def_round.specs.Rounds.{rounds};
ghost use Rattle.def_reply.specs.Reply.{values_of, choices_of, best_reply, total};
ghost use Rattle.def_reply.specs.Bracket.{trace};
ghost use Rattle.def_run.specs.Run.{reply_to, total_against, evaluations};
ghost use Rattle.def_plan.specs.Hidden.{hidden};
ghost use Rattle.def_round.specs.HiddenRounds.{after_one, after_two, after_three, after_four};
ghost use Rattle.def_plan.specs.Payoff.{leaf_sum};
ghost use Rattle.def_plan.specs.Kuhn.{kuhn};

/// Rows: the replies of both players to the sums after round 1, and their totals.
pub fn replies_one()
    ensures values_of_two { values_of (reply_to hidden Two after_one.sum_one) ≡ negsuc 25 ∷ negsuc 8 ∷ negsuc 11 ∷ [] }
    ensures choices_of_two { choices_of (reply_to hidden Two after_one.sum_one) ≡ 3 ∷ 2 ∷ 1 ∷ [] }
    ensures floor { total_against hidden Two after_one.sum_one ≡ negsuc 25 }
    ensures values_of_one { values_of (reply_to hidden One after_one.sum_two) ≡ pos 7 ∷ negsuc 5 ∷ negsuc 1 ∷ [] }
    ensures choices_of_one { choices_of (reply_to hidden One after_one.sum_two) ≡ 1 ∷ 2 ∷ 2 ∷ [] }
    ensures ceiling { total_against hidden One after_one.sum_two ≡ pos 7 }
{}

/// Rows: the replies of both players to the sums after round 2, and their totals.
pub fn replies_two()
    ensures values_of_two { values_of (reply_to hidden Two after_two.sum_one) ≡ negsuc 87 ∷ negsuc 29 ∷ negsuc 29 ∷ [] }
    ensures choices_of_two { choices_of (reply_to hidden Two after_two.sum_one) ≡ 3 ∷ 2 ∷ 1 ∷ [] }
    ensures floor { total_against hidden Two after_two.sum_one ≡ negsuc 87 }
    ensures values_of_one { values_of (reply_to hidden One after_two.sum_two) ≡ pos 8 ∷ negsuc 5 ∷ negsuc 1 ∷ [] }
    ensures choices_of_one { choices_of (reply_to hidden One after_two.sum_two) ≡ 3 ∷ 2 ∷ 2 ∷ [] }
    ensures ceiling { total_against hidden One after_two.sum_two ≡ pos 8 }
{}

/// Rows: the replies of both players to the sums after round 3, and their totals.
pub fn replies_three()
    ensures values_of_two { values_of (reply_to hidden Two after_three.sum_one)
        ≡ negsuc 65 ∷ negsuc 35 ∷ negsuc 29 ∷ [] }
    ensures choices_of_two { choices_of (reply_to hidden Two after_three.sum_one) ≡ 1 ∷ 2 ∷ 1 ∷ [] }
    ensures floor { total_against hidden Two after_three.sum_one ≡ negsuc 65 }
    ensures values_of_one { values_of (reply_to hidden One after_three.sum_two) ≡ pos 48 ∷ negsuc 5 ∷ negsuc 1 ∷ [] }
    ensures choices_of_one { choices_of (reply_to hidden One after_three.sum_two) ≡ 3 ∷ 2 ∷ 2 ∷ [] }
    ensures ceiling { total_against hidden One after_three.sum_two ≡ pos 48 }
{}

/// Rows: the replies of both players to the sums after round 4, and their totals.
pub fn replies_four()
    ensures values_of_two { values_of (reply_to hidden Two after_four.sum_one)
        ≡ negsuc 175 ∷ negsuc 35 ∷ negsuc 29 ∷ [] }
    ensures choices_of_two { choices_of (reply_to hidden Two after_four.sum_one) ≡ 1 ∷ 2 ∷ 1 ∷ [] }
    ensures floor { total_against hidden Two after_four.sum_one ≡ negsuc 175 }
    ensures values_of_one { values_of (reply_to hidden One after_four.sum_two) ≡ pos 28 ∷ negsuc 17 ∷ negsuc 1 ∷ [] }
    ensures choices_of_one { choices_of (reply_to hidden One after_four.sum_two) ≡ 3 ∷ 2 ∷ 2 ∷ [] }
    ensures ceiling { total_against hidden One after_four.sum_two ≡ pos 28 }
{}

/// Rows: the traces of four rounds, evaluated each round, each second, each third, and only at the end.
pub fn traces()
    ensures each { trace (evaluations hidden 10 1 4)
        ≡ record { round = 1; low_round = 1; low = negsuc 25; high_round = 1; high = pos 7 }
        ∷ record { round = 2; low_round = 1; low = negsuc 25; high_round = 2; high = pos 8 }
        ∷ record { round = 3; low_round = 3; low = negsuc 65; high_round = 2; high = pos 8 }
        ∷ record { round = 4; low_round = 3; low = negsuc 65; high_round = 2; high = pos 8 } ∷ [] }
    ensures second { trace (evaluations hidden 10 2 4)
        ≡ record { round = 2; low_round = 2; low = negsuc 87; high_round = 2; high = pos 8 }
        ∷ record { round = 4; low_round = 2; low = negsuc 87; high_round = 2; high = pos 8 } ∷ [] }
    ensures third { trace (evaluations hidden 10 3 4)
        ≡ record { round = 3; low_round = 3; low = negsuc 65; high_round = 3; high = pos 48 }
        ∷ record { round = 4; low_round = 3; low = negsuc 65; high_round = 4; high = pos 28 } ∷ [] }
    ensures last { trace (evaluations hidden 10 9 4)
        ≡ record { round = 4; low_round = 4; low = negsuc 175; high_round = 4; high = pos 28 } ∷ [] }
{}

/// Rows: after one round the ends, over the unit 6 times the root, are -5/12 and 1/2.
pub fn first_bracket()
    ensures low { let sums = leaf_sum Two kuhn.leaves (rounds kuhn 1048576 1).sum_one in
        pos 12 *ℤ total sums kuhn.sets_two (best_reply Two sums kuhn.sets_two) ≡ negsuc 4 *ℤ pos (6 * 1048576) }
    ensures high { let sums = leaf_sum One kuhn.leaves (rounds kuhn 1048576 1).sum_two in
        pos 2 *ℤ total sums kuhn.sets_one (best_reply One sums kuhn.sets_one) ≡ pos 1 *ℤ pos (6 * 1048576) }
{}

/// Row: Kuhn poker's trace after one round: over the unit 6 times the root, from -5/12 to 1/2.
pub fn trace_of_kuhn_poker()
    ensures { trace (evaluations kuhn 1048576 1 1)
        ≡ record { round = 1; low_round = 1; low = negsuc 2621439; high_round = 1; high = pos 3145728 } ∷ [] }
{}
