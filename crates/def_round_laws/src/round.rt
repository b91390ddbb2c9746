//! Laws of `def_round`: shares of whole units, plays by regret matching in whole units, and the rounds that they are
//! dealt in.

pub mod examples;
pub mod shares;
pub mod sizes;

ghost use Rattle.std.specs.Prelude.{◌≡◌, ◌==◌, [], ◌∷◌, pos, negsuc, if◌then◌else◌};
ghost use Rattle.def_plan.specs.Pennies.{pennies};
ghost use Rattle.def_round.specs.Laws.{OwnSumsGainWhatIsPaid, PlansOfPlaysAreUnique, PlaysAreInProportion};
ghost use Rattle.def_round.specs.Laws.{PlaysDealByShares, PlaysDealPlans, PlaysGiveAllUnits, PlaysHaveEachSet};
ghost use Rattle.def_round.specs.Laws.{PlaysPositiveRegrets, PositivePartsAreExact, RoundsAreComputed, RoundsFollow};
ghost use Rattle.def_round.specs.Laws.{RoundsNeedOwnSums, RoundsSumToPlans, SetValuesAreAverages, ValuesAreUnique};
ghost use Rattle.def_round.specs.Laws.{ValuesOfTheRest, ValuesSolveTheEquations, WorthsNeedLaterSets};
ghost use Rattle.def_round.specs.Play.{play_of, plan_of_play};
ghost use Rattle.def_round.specs.Round.{set_value};
ghost use Rattle.def_round.specs.Rounds.{rounds};
ghost use Rattle.def_plan.specs.SmallForms.{three_actions, one_mover};

/// A play has a number for each sequence, and at each set the shares of the positive parts of the regrets.
pub fn plays_have_each_set()
    ensures { PlaysHaveEachSet }
{}

/// Each set is played in units of 1 / 65,536, and all of them are given out.
pub fn plays_give_all_units()
    ensures { PlaysGiveAllUnits }
{}

/// Where an action of a set has a positive regret, those without one aren't played.
pub fn plays_positive_regrets()
    ensures { PlaysPositiveRegrets }
{}

/// The positive part of a regret is the regret, or 0 where it isn't positive.
pub fn positive_parts_are_exact()
    ensures { PositivePartsAreExact }
{}

/// An action's play is its positive regret's part of all units, but for less than one; without such a regret all are
/// played evenly.
pub fn plays_are_in_proportion()
    ensures { PlaysAreInProportion }
{}

/// What a play deals is a plan of its root.
pub fn plays_deal_plans()
    ensures { PlaysDealPlans }
{}

/// At each set a play deals the number of the sequence before it by shares, with the set's play as the weights.
pub fn plays_deal_by_shares()
    ensures { PlaysDealByShares }
{}

/// A plan that has these shares at each set is the plan of the play.
pub fn plans_of_plays_are_unique()
    ensures { PlansOfPlaysAreUnique }
{}

/// By own sums player one's plan gains what is paid, and player two's the negative.
pub fn own_sums_gain_what_is_paid()
    ensures { OwnSumsGainWhatIsPaid }
{}

/// A set's value is the average of its sequences' worths by the play, out of all units, rounded down.
pub fn set_values_are_averages()
    ensures { SetValuesAreAverages }
{}

/// The values that are computed solve a round's equations.
pub fn values_solve_the_equations()
    ensures { ValuesSolveTheEquations }
{}

/// A round's equations have no other solution.
pub fn values_are_unique()
    ensures { ValuesAreUnique }
{}

/// The values from a set on are those of these sets alone, so they can be found from the last set upwards.
pub fn values_of_the_rest()
    ensures { ValuesOfTheRest }
{}

/// The worth of a sequence at a set or after it needs the sets after that set alone.
pub fn worths_need_later_sets()
    ensures { WorthsNeedLaterSets }
{}

/// A round's values and regrets need the sums at the player's own sequences alone.
pub fn rounds_need_own_sums()
    ensures { RoundsNeedOwnSums }
{}

/// The regrets that are computed are exactly those that a round's equations allow.
pub fn rounds_are_computed()
    ensures { RoundsAreComputed }
{}

/// A run begins with no regrets and nothing in the sums, and each round follows from the standing before it.
pub fn rounds_follow()
    ensures { RoundsFollow }
{}

/// After n rounds the sums of the plans are plans of n times the root.
pub fn rounds_sum_to_plans()
    ensures { RoundsSumToPlans }
{}

/// Row: the first plan over three actions, of which none has a regret.
pub fn worked_plan()
    ensures play { play_of three_actions (pos 0 ∷ pos 0 ∷ pos 0 ∷ pos 0 ∷ []) ≡ 0 ∷ 21845 ∷ 21845 ∷ 21846 ∷ [] }
    ensures plan { plan_of_play three_actions (0 ∷ 21845 ∷ 21845 ∷ 21846 ∷ []) 1048576
        ≡ 1048576 ∷ 349520 ∷ 349520 ∷ 349536 ∷ [] }
{}

/// Player one alone moves. In round 1 the leaf sums are 1048576 and 0 and the set's value is 524288, so round 2 plays
/// the first action alone.
pub fn rounds_of_one_mover()
    ensures first_regrets { (rounds one_mover 1048576 1).regrets_one ≡ pos 0 ∷ pos 524288 ∷ negsuc 524287 ∷ [] }
    ensures sum_one { (rounds one_mover 1048576 2).sum_one ≡ 2097152 ∷ 1572864 ∷ 524288 ∷ [] }
    ensures sum_two { (rounds one_mover 1048576 2).sum_two ≡ 2097152 ∷ [] }
{}

/// Matching pennies with plans of root 1. In round 1 the one unit goes to the second action of each player, so player
/// one keeps it in round 2, and player two takes the first.
pub fn rounds_of_pennies()
    ensures first_regrets_of_one { (rounds pennies 1 1).regrets_one ≡ pos 0 ∷ negsuc 0 ∷ pos 1 ∷ [] }
    ensures first_regrets_of_two { (rounds pennies 1 1).regrets_two ≡ pos 0 ∷ pos 1 ∷ negsuc 0 ∷ [] }
    ensures sum_one { (rounds pennies 1 2).sum_one ≡ 2 ∷ 0 ∷ 2 ∷ [] }
    ensures sum_two { (rounds pennies 1 2).sum_two ≡ 2 ∷ 1 ∷ 1 ∷ [] }
{}

/// A set whose two sequences are worth -1 and 0 is worth -1/2, which is rounded down to -1.
pub fn worked_set_value()
    ensures { set_value (0 ∷ 32768 ∷ 32768 ∷ []) (λ s. if s == 1 then negsuc 0 else pos 0)
        (record { first = 1; before = 0; actions = 2 })
        ≡ negsuc 0 }
{}
