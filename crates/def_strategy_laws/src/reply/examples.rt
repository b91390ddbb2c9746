//! Replies to even play in Kuhn poker, and what they bound.

ghost use Rattle.std.specs.Prelude.{◌≡◌, [], ◌∷◌, None, pos, negsuc};
ghost use Rattle.def_tree.specs.declared.Player.TheVariants.{One, Two};
ghost use Rattle.def_plan.specs.Plan.{bad_set};
ghost use Rattle.def_plan.specs.Payoff.{leaf_sum, mass_of};
ghost use Rattle.def_reply.specs.Reply.{best_reply, values_of, choices_of, total};
ghost use Rattle.def_reply.specs.Bounds.{IsFloor, IsCeiling};
ghost use Rattle.def_plan.specs.Kuhn.{kuhn, even_one, even_two};

/// Rows: the mass, and replies to even plans of Kuhn poker, whose fifth set of player one has two best actions.
pub fn replies_of_kuhn_poker()
    ensures mass { mass_of kuhn.leaves ≡ 42 }
    ensures plan_one { bad_set kuhn.sets_one 1048576 even_one ≡ None }
    ensures plan_two { bad_set kuhn.sets_two 1048576 even_two ≡ None }
    ensures values_of_two { values_of (best_reply Two (leaf_sum Two kuhn.leaves even_one) kuhn.sets_two)
        ≡ negsuc 524287 ∷ pos 0 ∷ negsuc 1572863 ∷ negsuc 2097151 ∷ pos 524288 ∷ pos 1048576 ∷ [] }
    ensures choices_of_two { choices_of (best_reply Two (leaf_sum Two kuhn.leaves even_one) kuhn.sets_two)
        ≡ 2 ∷ 2 ∷ 2 ∷ 2 ∷ 2 ∷ 1 ∷ [] }
    ensures floor { let sums = leaf_sum Two kuhn.leaves even_one in
        total sums kuhn.sets_two (best_reply Two sums kuhn.sets_two) ≡ negsuc 2621439 }
    ensures values_of_one { values_of (best_reply One (leaf_sum One kuhn.leaves even_two) kuhn.sets_one)
        ≡ negsuc 1048575 ∷ negsuc 1048575 ∷ pos 1048576 ∷ pos 0 ∷ pos 3145728 ∷ pos 2097152 ∷ [] }
    ensures choices_of_one { choices_of (best_reply One (leaf_sum One kuhn.leaves even_two) kuhn.sets_one)
        ≡ 2 ∷ 1 ∷ 2 ∷ 2 ∷ 1 ∷ 2 ∷ [] }
    ensures ceiling { let sums = leaf_sum One kuhn.leaves even_two in
        total sums kuhn.sets_one (best_reply One sums kuhn.sets_one) ≡ pos 3145728 }
{}

/// Rows: a floor and a ceiling of even play in Kuhn poker, in units of one sixth times its root.
pub fn bounds_of_kuhn_poker()
    ensures floor { IsFloor kuhn even_one (negsuc 2621439) }
    ensures ceiling { IsCeiling kuhn even_two (pos 3145728) }
{}
