//! How large the numbers of rounds can be, on which fixed widths rest.

ghost use Rattle.def_round.specs.SizeLaws.{DealtProductsAreSmall, OwnSumsAreSmall, PlayProductsAreSmall};
ghost use Rattle.def_round.specs.SizeLaws.{RegretsAreSmall, RegretsGrowByTheSums, RegretsGrowSlowly};
ghost use Rattle.def_round.specs.SizeLaws.{RegretsStaySmall, RoundsAreSmall, SmallRegretsDealSmallProducts};
ghost use Rattle.def_round.specs.SizeLaws.{ValuesAreWithinSums, WorthPartsAreWithinSums, WorthsAreWithinSums};

/// A player's leaf sums against a plan are together at most the mass times the plan's root.
pub fn own_sums_are_small()
    ensures { OwnSumsAreSmall }
{}

/// At each set the value, the worths together, what is added to a regret, and over the units the products with the play
/// stay within the leaf sums together.
pub fn values_are_within_sums()
    ensures { ValuesAreWithinSums }
{}

/// The worth of each sequence, the empty one too, is at most the leaf sums together.
pub fn worths_are_within_sums()
    ensures { WorthsAreWithinSums }
{}

/// The parts of the sum that a worth is are together at most the leaf sums together.
pub fn worth_parts_are_within_sums()
    ensures { WorthPartsAreWithinSums }
{}

/// A round adds at most the leaf sums together to a regret, whatever regrets it begins with.
pub fn regrets_grow_by_the_sums()
    ensures { RegretsGrowByTheSums }
{}

/// With leaf sums of at most 2^82 together, regrets within that times the rounds stay so after one more, and within
/// 2^98.
pub fn regrets_stay_small()
    ensures { RegretsStaySmall }
{}

/// With regrets of at most 2^98, all units times a set's positive regrets are below 2^126, where it has at most 1,024
/// actions.
pub fn small_regrets_deal_small_products()
    ensures { SmallRegretsDealSmallProducts }
{}

/// After n rounds no regret is larger than n times the mass times the root.
pub fn regrets_grow_slowly()
    ensures { RegretsGrowSlowly }
{}

/// Under the limits the mass times the root, which bounds a round's leaf sums together, is at most 2^82.
pub fn rounds_are_small()
    ensures { RoundsAreSmall }
{}

/// Under the limits all units times the mass times the root, which bounds a set's products of play and worth, is at
/// most 2^98.
pub fn play_products_are_small()
    ensures { PlayProductsAreSmall }
{}

/// Under the limits, for up to 65,536 rounds, no regret is larger than 2^98.
pub fn regrets_are_small()
    ensures { RegretsAreSmall }
{}

/// Under the limits all units times a set's positive regrets are below 2^126, where a set has at most 1,024 actions.
pub fn dealt_products_are_small()
    ensures { DealtProductsAreSmall }
{}
