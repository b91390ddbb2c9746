//! Laws of `def_run`: A run: the evaluations and the bracket of rounds that sum plans, whatever they weigh, and those
//! of plain rounds, with rows of example games.

pub mod examples;
pub mod weighed;

ghost use Rattle.std.specs.Prelude.{◌≡◌, [], ◌∷◌, Some, pos, negsuc};
ghost use Rattle.def_plan.specs.Pennies.{pennies};
ghost use Rattle.def_plan.specs.SmallForms.{one_mover};
ghost use Rattle.def_reply.specs.Bracket.{trace};
ghost use Rattle.def_reply.specs.Offers.{board_after};
ghost use Rattle.def_run.specs.Run.{evaluations, offers};
ghost use Rattle.def_run.specs.Laws.{EndsAreInOrder, EndsAreOfTheirRounds, EndsBoundAllPlans, EvaluationsAreBounds};
ghost use Rattle.def_run.specs.Laws.{GapOfRunIsExploitability, OffersOfRunAreFair, OutcomesShowTheirRun};
ghost use Rattle.def_run.specs.Laws.{RunsHaveEnds, TraceOfRunLooksBack, TraceOfRunNeverWidens};

/// After each round both sums are plans, and the evaluation is the attained floor of the one and ceiling of the other.
pub fn evaluations_are_bounds()
    ensures { EvaluationsAreBounds }
{}

/// Each end is the evaluation after its own round, which is an evaluated one of the run.
pub fn ends_are_of_their_rounds()
    ensures { EndsAreOfTheirRounds }
{}

/// A run of at least one round has ends.
pub fn runs_have_ends()
    ensures { RunsHaveEnds }
{}

/// The lower end is at most the upper one, each divided by its round.
pub fn ends_are_in_order()
    ensures { EndsAreInOrder }
{}

/// No line of a run's trace is wider than an earlier one.
pub fn trace_of_run_never_widens()
    ensures { TraceOfRunNeverWidens }
{}

/// The ends of each line of a run's trace come from rounds from 1 up to the line's own.
pub fn trace_of_run_looks_back()
    ensures { TraceOfRunLooksBack }
{}

/// The gap between the ends, each over its plan's root, is the total exploitability of the two plans.
pub fn gap_of_run_is_exploitability()
    ensures { GapOfRunIsExploitability }
{}

/// No plan of player one has a floor, over its root, above the upper end; none of player two a ceiling below the lower
/// end.
pub fn ends_bound_all_plans()
    ensures { EndsBoundAllPlans }
{}

/// Within the limits each offer of a run is fair.
pub fn offers_of_run_are_fair()
    ensures { OffersOfRunAreFair }
{}

/// An outcome has its head, the run's trace and, where a round was asked, the sums of plans at both ends with the best
/// replies to them.
pub fn outcomes_show_their_run()
    ensures { OutcomesShowTheirRun }
{}

/// Row: one mover, two rounds: both ceilings are equal, and the first is kept.
pub fn run_trace_of_one_mover()
    ensures { trace (evaluations one_mover 1048576 1 2)
        ≡ record { round = 1; low_round = 1; low = pos 524288; high_round = 1; high = pos 1048576 }
        ∷ record { round = 2; low_round = 2; low = pos 1572864; high_round = 1; high = pos 1048576 } ∷ [] }
{}

/// Row: matching pennies, two rounds with plans of root 1: the ends come from different rounds.
pub fn run_trace_of_pennies()
    ensures { trace (evaluations pennies 1 1 2)
        ≡ record { round = 1; low_round = 1; low = negsuc 0; high_round = 1; high = pos 1 }
        ∷ record { round = 2; low_round = 1; low = negsuc 0; high_round = 2; high = pos 0 } ∷ [] }
{}

/// Rows: matching pennies, two rounds with plans of root 1: each end keeps the plan of its own round and the reply to
/// it.
pub fn ends_of_pennies()
    ensures lower { (board_after (offers pennies 1 1 2)).lower
        ≡ Some (record {
          round = 1;
          divisor = 1;
          plan = 1 ∷ 0 ∷ 1 ∷ [];
          reply = record { total = negsuc 0; sets = record { value = negsuc 0; choice = 1 } ∷ [] };
        }) }
    ensures upper { (board_after (offers pennies 1 1 2)).upper
        ≡ Some (record {
          round = 2;
          divisor = 2;
          plan = 2 ∷ 1 ∷ 1 ∷ [];
          reply = record { total = pos 0; sets = record { value = pos 0; choice = 1 } ∷ [] };
        }) }
{}
