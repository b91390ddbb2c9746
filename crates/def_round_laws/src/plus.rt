//! Laws of `def_plus`: rounds of CFR+ (Tammelin 2014): regrets that are cut at 0, plans that count as many times as
//! the number of their round, and the sums that they make.

pub mod examples;

ghost use Rattle.def_plus.specs.Laws.{CutRegretsAreExact, PlansAreAddedTimes, RoundsWeighTheirNumbers};
ghost use Rattle.def_plus.specs.Laws.{SumsOfMultiplesArePlans};
ghost use Rattle.def_plus.specs.RoundLaws.{PlusRegretsAreNotNegative, PlusRegretsAreSmall, PlusRoundsFollow};
ghost use Rattle.def_plus.specs.RoundLaws.{PlusRoundsSumToPlans, SumsWeighThePlans};

/// A cut regret is the greater of 0 and the regret; a cut makes none larger and doesn't change what is played next.
pub fn cut_regrets_are_exact()
    ensures { CutRegretsAreExact }
{}

/// A plan that is added several times adds so many times its numbers, and is what so many additions make.
pub fn plans_are_added_times()
    ensures { PlansAreAddedTimes }
{}

/// What plans and cleared ones make with such additions is a plan or cleared, and the roots are added likewise.
pub fn sums_of_multiples_are_plans()
    ensures { SumsOfMultiplesArePlans }
{}

/// Round k weighs k: the rounds up to n weigh 1 + 2 + .. + n together, and within the limits the root of the sums is
/// one of plain rounds.
pub fn rounds_weigh_their_numbers()
    ensures { RoundsWeighTheirNumbers }
{}

/// A run begins with no regrets and nothing in the sums, and each round follows from the standing before it.
pub fn plus_rounds_follow()
    ensures { PlusRoundsFollow }
{}

/// Each number of a sum is the sum over the rounds of a round's number times its plan's number.
pub fn sums_weigh_the_plans()
    ensures { SumsWeighThePlans }
{}

/// After n rounds the sums are plans of 1 + 2 + .. + n times the root.
pub fn plus_rounds_sum_to_plans()
    ensures { PlusRoundsSumToPlans }
{}

/// No regret is below 0 after a round.
pub fn plus_regrets_are_not_negative()
    ensures { PlusRegretsAreNotNegative }
{}

/// After n rounds no regret is larger than n times the mass times the root, which within the limits is at most n times
/// 2^82.
pub fn plus_regrets_are_small()
    ensures { PlusRegretsAreSmall }
{}
