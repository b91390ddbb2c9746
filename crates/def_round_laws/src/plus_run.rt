//! Laws of `def_plus_run`: A run of CFR+ (Tammelin 2014): its evaluations and its bracket, as those of every run that
//! sums plans, with rows of example games.

pub mod examples;

ghost use Rattle.def_plus_run.specs.PlusLaws.{PlusBoundsAreSmall, PlusOffersAreFair, PlusRunsHaveBrackets};
ghost use Rattle.def_plus_run.specs.PlusLaws.{PlusRunsSumPlans};
ghost use Rattle.def_plus_run.specs.VariantLaws.{VariantOffersAreFair, VariantRunsSumPlans, VariantsAreBothRuns};

/// A run of CFR+ sums plans, of the root times 1 + 2 + .. + n after n rounds.
pub fn plus_runs_sum_plans()
    ensures { PlusRunsSumPlans }
{}

/// Within the limits the bounds of an evaluation are at most the mass times the root of the sums, and their products
/// with what other rounds weigh are below 2^119.
pub fn plus_bounds_are_small()
    ensures { PlusBoundsAreSmall }
{}

/// Within the limits each offer of a run is fair.
pub fn plus_offers_are_fair()
    ensures { PlusOffersAreFair }
{}

/// The ends of a run are the earliest best of its evaluations, attained bounds of the plans there, and in order; no
/// line of its trace is wider than an earlier one.
pub fn plus_runs_have_brackets()
    ensures { PlusRunsHaveBrackets }
{}

/// The runs of both variants are that of plain rounds and that of CFR+.
pub fn variants_are_both_runs()
    ensures { VariantsAreBothRuns }
{}

/// The run of each variant sums plans.
pub fn variant_runs_sum_plans()
    ensures { VariantRunsSumPlans }
{}

/// Within the limits of its variant each offer of a run is fair.
pub fn variant_offers_are_fair()
    ensures { VariantOffersAreFair }
{}
