//! Laws of `def_plan`: plans of one player in the sequence form (von Stengel 1996), what two of them pay, the rows of
//! a form, which are its leaf sums by sequence, the leaves of each sequence, and small games as forms.

pub mod examples;
pub mod form_rows;
pub mod threads;

ghost use Rattle.std.specs.Prelude.{◌≡◌, [], ◌∷◌, Some, None, pos, negsuc};
ghost use Rattle.def_plan.specs.Plan.{bad_set, pure_plan, added};
ghost use Rattle.def_tree.specs.declared.Player.TheVariants.{One, Two};
ghost use Rattle.def_plan.specs.Payoff.{pay, leaf_sum, mass_of};
ghost use Rattle.def_plan.specs.Pennies.{pennies, one_set};
ghost use Rattle.def_plan.specs.Laws.{SequencesAreNumbered, DealingMakesPlans, ChoicesMakeAPlan};
ghost use Rattle.def_plan.specs.Laws.{ClearedPlansAddNothing, SumsArePlans, LeafSumsGiveThePayoff, WeakDuality};
ghost use Rattle.def_plan.specs.Laws.{ComplementarySlackness, BadSetIsExact, PlansAreSmall};

/// The empty sequence and then those of each set in turn are all sequences, and a set's place tells its first one.
pub fn sequences_are_numbered()
    ensures { SequencesAreNumbered }
{}

/// Rules that deal each number whole make a plan, which follows them; no other plan of its root does.
pub fn dealing_makes_plans()
    ensures { DealingMakesPlans }
{}

/// A choice at each set makes a plan of root 1 that follows it, and the only one.
pub fn choices_make_a_plan()
    ensures { ChoicesMakeAPlan }
{}

/// Two plans add up to a plan whose root is the sum of both roots.
pub fn sums_are_plans()
    ensures { SumsArePlans }
{}

/// A cleared plan is no plan and adds nothing; what plans and cleared ones add up to is a plan or cleared.
pub fn cleared_plans_add_nothing()
    ensures { ClearedPlansAddNothing }
{}

/// What two plans pay is the sum over one player's sequences of leaf sum times number, for either player.
pub fn leaf_sums_give_the_payoff()
    ensures { LeafSumsGiveThePayoff }
{}

/// Where no action is better than its set's value, no plan gains better than its root times the empty sequence's worth.
pub fn weak_duality()
    ensures { WeakDuality }
{}

/// A plan that plays only where the worth is the set's value gains just its root times the empty sequence's worth.
pub fn complementary_slackness()
    ensures { ComplementarySlackness }
{}

/// The test of a list finds nothing exactly where it is a plan, and else exactly what the words say is bad first.
pub fn bad_set_is_exact()
    ensures { BadSetIsExact }
{}

/// No number of a plan is above its root, and the leaf sums against it are together at most the mass times the root;
/// under the limits that is at most 2^82 for a scale and 2^98 for any root.
pub fn plans_are_small()
    ensures { PlansAreSmall }
{}

/// Rows: in matching pennies a plan passes; numbers that don't add up, a short list and another root or none don't.
pub fn bad_sets_of_pennies()
    ensures plan { bad_set one_set 2 (2 ∷ 1 ∷ 1 ∷ []) ≡ None }
    ensures too_much { bad_set one_set 2 (2 ∷ 1 ∷ 2 ∷ []) ≡ Some 1 }
    ensures too_short { bad_set one_set 2 (2 ∷ 2 ∷ []) ≡ Some 0 }
    ensures other_root { bad_set one_set 2 (1 ∷ 1 ∷ 0 ∷ []) ≡ Some 0 }
    ensures no_root { bad_set one_set 0 (0 ∷ 0 ∷ 0 ∷ []) ≡ Some 0 }
{}

/// Rows: two pure plans of matching pennies, their sum, what plans pay, leaf sums against them, and the mass 4.
pub fn plans_of_pennies()
    ensures heads { pure_plan one_set (1 ∷ []) ≡ 1 ∷ 1 ∷ 0 ∷ [] }
    ensures tails { pure_plan one_set (2 ∷ []) ≡ 1 ∷ 0 ∷ 1 ∷ [] }
    ensures both { added (1 ∷ 1 ∷ 0 ∷ []) (1 ∷ 0 ∷ 1 ∷ []) ≡ 2 ∷ 1 ∷ 1 ∷ [] }
    ensures matched { pay pennies.leaves (1 ∷ 0 ∷ 1 ∷ []) (1 ∷ 0 ∷ 1 ∷ []) ≡ pos 1 }
    ensures mixed { pay pennies.leaves (2 ∷ 1 ∷ 1 ∷ []) (1 ∷ 0 ∷ 1 ∷ []) ≡ pos 0 }
    ensures against_heads { leaf_sum One pennies.leaves (1 ∷ 1 ∷ 0 ∷ []) 2 ≡ negsuc 0 }
    ensures of_two { leaf_sum Two pennies.leaves (3 ∷ 1 ∷ 2 ∷ []) 1 ≡ negsuc 0 }
    ensures all_weights { mass_of pennies.leaves ≡ 4 }
{}
