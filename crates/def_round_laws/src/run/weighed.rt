//! The bracket of every run that sums plans, whatever its rounds weigh.

ghost use Rattle.def_run.specs.WeighedLaws.{WeighedEndsAreBounds};
ghost use Rattle.def_run.specs.WeighedLaws.{WeighedEvaluationsAreBounds, WeighedEndsAreTheEarliestBest};
ghost use Rattle.def_run.specs.WeighedLaws.{WeighedRunsHaveEnds};
ghost use Rattle.def_run.specs.WeighedLaws.{WeighedEndsAreInOrder, WeighedTraceNeverWidens, WeighedTraceLooksBack};
ghost use Rattle.def_run.specs.WeighedLaws.{GapOfWeighedRunIsExploitability, WeighedEndsBoundAllPlans};
ghost use Rattle.def_run.specs.WeighedLaws.{WeighedOffersAreFair};
ghost use Rattle.def_run.specs.WeighedLaws.{WeighedOutcomesShowTheirRun, PlainRunsSumPlans};

/// After each round both sums are plans, and the evaluation is the attained floor of the one and ceiling of the other.
pub fn weighed_evaluations_are_bounds()
    ensures { WeighedEvaluationsAreBounds }
{}

/// Each end is the earliest best evaluation, after a round that is an evaluated one.
pub fn weighed_ends_are_the_earliest_best()
    ensures { WeighedEndsAreTheEarliestBest }
{}

/// At the ends stand plans with their attained floor and ceiling.
pub fn weighed_ends_are_bounds()
    ensures { WeighedEndsAreBounds }
{}

/// A run of at least one round has ends.
pub fn weighed_runs_have_ends()
    ensures { WeighedRunsHaveEnds }
{}

/// The lower end is at most the upper one, each divided by what its rounds weigh.
pub fn weighed_ends_are_in_order()
    ensures { WeighedEndsAreInOrder }
{}

/// No line of the trace is wider than an earlier one.
pub fn weighed_trace_never_widens()
    ensures { WeighedTraceNeverWidens }
{}

/// The ends of each line come from rounds from 1 up to the line's own.
pub fn weighed_trace_looks_back()
    ensures { WeighedTraceLooksBack }
{}

/// The gap between the ends, each over its plan's root, is the total exploitability of the two plans.
pub fn gap_of_weighed_run_is_exploitability()
    ensures { GapOfWeighedRunIsExploitability }
{}

/// No plan of player one has a floor, over its root, above the upper end; none of player two a ceiling below the lower
/// end.
pub fn weighed_ends_bound_all_plans()
    ensures { WeighedEndsBoundAllPlans }
{}

/// Within the limits each offer is fair.
pub fn weighed_offers_are_fair()
    ensures { WeighedOffersAreFair }
{}

/// An outcome has its head, the trace and, where a round was asked, the sums of plans at both ends with the best
/// replies to them.
pub fn weighed_outcomes_show_their_run()
    ensures { WeighedOutcomesShowTheirRun }
{}

/// A run of plain rounds is one that sums plans, in which each round weighs 1.
pub fn plain_runs_sum_plans()
    ensures { PlainRunsSumPlans }
{}
