//! Laws of `def_constant_sum`: what two plans are expected to pay each player of a game whose leaves all pay both
//! players together the same.

ghost use Rattle.def_constant_sum.specs.Laws.{BestPayoffsInWeights, BoundsInWeights, EachBoundsTheOther};
ghost use Rattle.def_constant_sum.specs.Laws.{ExploitabilityIsGained};
ghost use Rattle.def_constant_sum.specs.Laws.{FaultlessGamesAreComplete, LeavesShareOne, PayoffsAddUp};
ghost use Rattle.def_constant_sum.specs.Laws.{WeightsPayTheExpected};
ghost use Rattle.def_constant_sum.specs.Rows.{PayoffRows};

/// The game of a file without a fault is complete and of constant sum.
pub fn faultless_games_are_complete()
    ensures { FaultlessGamesAreComplete }
{}

/// The probabilities of the leaves add up to 1 under any two plans (von Stengel 1996).
pub fn leaves_share_one()
    ensures { LeavesShareOne }
{}

/// What player one is expected to get is what the plans pay in weights, over the unit and both roots.
pub fn weights_pay_the_expected()
    ensures { WeightsPayTheExpected }
{}

/// In a game of constant sum both players together are expected to get this sum, under any two plans.
pub fn payoffs_add_up()
    ensures { PayoffsAddUp }
{}

/// What a plan gets or concedes at least or at most in weights, it does in expected payoffs, and the other way round.
pub fn bounds_in_weights()
    ensures { BoundsInWeights }
{}

/// In a game of constant sum a plan is sure of a payoff exactly where it keeps the other player to the rest of the sum.
pub fn each_bounds_the_other()
    ensures { EachBoundsTheOther }
{}

/// Player one's best payoff in weights is the best that is expected against a plan; in a game of constant sum player
/// two's is what the sum is above the payoff that player two's best replies leave to player one.
pub fn best_payoffs_in_weights()
    ensures { BestPayoffsInWeights }
{}

/// The total exploitability of two plans is what both players together could gain by best replies, each in their own
/// payoffs; a best payoff is the only one.
pub fn exploitability_is_gained()
    ensures { ExploitabilityIsGained }
{}

/// Rows: in matching pennies for one coin, heads against heads once in three times gets 1/3 and leaves 2/3; in an
/// uneven game of sum 5/6 two plans get 13/9 and -11/18.
pub fn payoff_rows()
    ensures { PayoffRows }
{}
