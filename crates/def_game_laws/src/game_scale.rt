//! Laws of `def_game_scale`: payoffs and chances of a tree as whole numbers: its sum, its unit, its weights and its
//! mass, and which game has a fault in its numbers, the first one.

pub mod faults;

ghost use Rattle.def_game_scale.specs.Laws.{AllAreFractions, NumbersRun, SumIsWhole, UnitIsLeast, WeightsAreWhole};
ghost use Rattle.def_game_scale.specs.Laws.{ZeroSumIsSumZero};
ghost use Rattle.def_game_scale.specs.Rows.{ScaleRows};

/// The unit of fractions in lowest terms is the least number from 1 on that makes each of them whole, and divides each
/// other such number.
pub fn unit_is_least()
    ensures { UnitIsLeast }
{}

/// Where the tables' fractions are in lowest terms, the game's sum is so, and reach times player one's payoff at each
/// leaf.
pub fn all_are_fractions()
    ensures { AllAreFractions }
{}

/// Where the tables are in lowest terms, unit times the game's sum is a whole number.
pub fn sum_is_whole()
    ensures { SumIsWhole }
{}

/// Where the tables are in lowest terms, each leaf has one weight, a whole number: unit times reach times player one's
/// payoff.
pub fn weights_are_whole()
    ensures { WeightsAreWhole }
{}

/// Where the tables are in lowest terms, the running sum, unit and mass go from 0, 1 and 0 to the game's, node after
/// node; leaves alone change them, and the sum the first leaf alone.
pub fn numbers_run()
    ensures { NumbersRun }
{}

/// A game is zero-sum exactly where it is of constant sum 0, and then its unit, its weights and its mass are those of
/// what its leaves are expected to pay, and nothing else.
pub fn zero_sum_is_sum_zero()
    ensures { ZeroSumIsSumZero }
{}

/// A choice of two tosses has unit 2 and mass 2, one with payoffs on the way unit 2 and mass 3, and chance below
/// chance unit 48 and mass 96, each with these weights; the sums at their first leaves are 0, 0 and 11/6.
pub fn scale_rows()
    ensures { ScaleRows }
{}
