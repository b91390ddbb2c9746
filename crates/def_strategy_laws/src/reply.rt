//! Laws of `def_reply`: best replies, what bounds a plan, and the bracket: the best ends of several offers, and their
//! trace.

pub mod bracket;
pub mod examples;
pub mod offers;

ghost use Rattle.std.specs.Prelude.{◌≡◌, [], ◌∷◌, pos, negsuc};
ghost use Rattle.def_tree.specs.declared.Player.TheVariants.{One, Two};
ghost use Rattle.def_plan.specs.Payoff.{leaf_sum};
ghost use Rattle.def_plan.specs.Pennies.{pennies};
ghost use Rattle.def_reply.specs.Reply.{best_reply, values_of, choices_of, total};
ghost use Rattle.def_reply.specs.Laws.{RepliesNeedOwnSums, RepliesSolveTheirEquations, TightRepliesAreOptimal};
ghost use Rattle.def_reply.specs.Laws.{BestRepliesAreOptimal, TightRepliesGiveBounds, BestRepliesGiveBounds};
ghost use Rattle.def_reply.specs.Laws.{AttainedBoundsAreBest, FloorsAreBelowCeilings, RepliesAreSmall};
ghost use Rattle.def_reply.specs.Laws.{BoundsAreSmall};

/// The best reply alone solves its equations, and its part from a set on is the reply at those sets.
pub fn replies_solve_their_equations()
    ensures { RepliesSolveTheirEquations }
{}

/// Best replies, totals and tightness need the sums at the player's own sequences alone.
pub fn replies_need_own_sums()
    ensures { RepliesNeedOwnSums }
{}

/// Tight values and choices, whoever wrote them, bound what a plan gains by its root times their total; the plan of the
/// choices gains just the total.
pub fn tight_replies_are_optimal()
    ensures { TightRepliesAreOptimal }
{}

/// The best reply's total times a plan's root bounds what the plan gains, and the plan of its choices gains just the
/// total.
pub fn best_replies_are_optimal()
    ensures { BestRepliesAreOptimal }
{}

/// Tight replies show an attained floor of player one's plan, and an attained ceiling of player two's.
pub fn tight_replies_give_bounds()
    ensures { TightRepliesGiveBounds }
{}

/// The total of the best reply to a plan is its attained floor or, of player two's plan, its attained ceiling.
pub fn best_replies_give_bounds()
    ensures { BestRepliesGiveBounds }
{}

/// No floor is above an attained number and no ceiling below one: an attained bound is the best.
pub fn attained_bounds_are_best()
    ensures { AttainedBoundsAreBest }
{}

/// No floor of a plan of player one is above a ceiling of a plan of player two, each divided by its plan's root.
pub fn floors_are_below_ceilings()
    ensures { FloorsAreBelowCeilings }
{}

/// No value and no total of a best reply is larger than the leaf sums together, nor are the parts of a worth together.
pub fn replies_are_small()
    ensures { RepliesAreSmall }
{}

/// Under the limits of mass and root the floor and the ceiling that best replies show are at most 2^98 in size.
pub fn bounds_are_small()
    ensures { BoundsAreSmall }
{}

/// Rows: replies to plans of matching pennies, with their values, first choices, floor and ceilings.
pub fn replies_of_pennies()
    ensures values_of_two { values_of (best_reply Two (leaf_sum Two pennies.leaves (1 ∷ 0 ∷ 1 ∷ [])) pennies.sets_two)
        ≡ negsuc 0 ∷ [] }
    ensures choices_of_two { choices_of (best_reply Two (leaf_sum Two pennies.leaves (1 ∷ 0 ∷ 1 ∷ [])) pennies.sets_two)
        ≡ 1 ∷ [] }
    ensures floor { let sums = leaf_sum Two pennies.leaves (1 ∷ 0 ∷ 1 ∷ []) in
        total sums pennies.sets_two (best_reply Two sums pennies.sets_two) ≡ negsuc 0 }
    ensures values_of_one { values_of (best_reply One (leaf_sum One pennies.leaves (2 ∷ 1 ∷ 1 ∷ [])) pennies.sets_one)
        ≡ pos 0 ∷ [] }
    ensures choices_of_one { choices_of (best_reply One (leaf_sum One pennies.leaves (2 ∷ 1 ∷ 1 ∷ [])) pennies.sets_one)
        ≡ 1 ∷ [] }
    ensures ceiling { let sums = leaf_sum One pennies.leaves (2 ∷ 1 ∷ 1 ∷ []) in
        total sums pennies.sets_one (best_reply One sums pennies.sets_one) ≡ pos 0 }
    ensures earlier_ceiling { let sums = leaf_sum One pennies.leaves (1 ∷ 0 ∷ 1 ∷ []) in
        total sums pennies.sets_one (best_reply One sums pennies.sets_one) ≡ pos 1 }
{}
