//! The bracket of the evaluated averages: which rounds are evaluated, the ends, and the trace.

ghost use Rattle.std.specs.Prelude.{◌≡◌, [], ◌∷◌, pos, negsuc};
ghost use Rattle.def_reply.specs.Bracket.{evaluated_rounds, trace};
ghost use Rattle.def_reply.specs.BracketLaws.{EndsAreTheEarliestBest, EndsNeverWorsen, TraceHasALineForEach};
ghost use Rattle.def_reply.specs.BracketLaws.{TraceLooksBack, TraceNeverWidens, RoundsAreEvaluated};
ghost use Rattle.def_reply.specs.BracketLaws.{BracketProductsAreSmall};

/// Where no divisor is 0, the lower end is the earliest evaluation with the greatest floor, the upper one the earliest
/// with the least ceiling.
pub fn ends_are_the_earliest_best()
    ensures { EndsAreTheEarliestBest }
{}

/// Each evaluation adds one line to the trace, with its round and the ends of the evaluations so far.
pub fn trace_has_a_line_for_each()
    ensures { TraceHasALineForEach }
{}

/// Where no divisor is 0, the ends of more evaluations are no worse than those of the first of them.
pub fn ends_never_worsen()
    ensures { EndsNeverWorsen }
{}

/// Where bounds are divided by what their rounds weigh, no line of the trace is wider than an earlier one.
pub fn trace_never_widens()
    ensures { TraceNeverWidens }
{}

/// Where rounds rise, the ends of each line come from rounds from 1 up to the line's own.
pub fn trace_looks_back()
    ensures { TraceLooksBack }
{}

/// Evaluated are, in order, the multiples of `every` up to the last round, and the last; the i-th is i times `every` or
/// the last.
pub fn rounds_are_evaluated()
    ensures { RoundsAreEvaluated }
{}

/// A bound of at most 2^98 times a round within the limit is below 2^115.
pub fn bracket_products_are_small()
    ensures { BracketProductsAreSmall }
{}

/// Row: one mover, two rounds: both ceilings are equal, and the first is kept.
pub fn trace_of_one_mover()
    ensures { trace (record { round = 1; divisor = 1; low = pos 524288; high = pos 1048576 }
        ∷ record { round = 2; divisor = 2; low = pos 1572864; high = pos 2097152 } ∷ [])
        ≡ record { round = 1; low_round = 1; low = pos 524288; high_round = 1; high = pos 1048576 }
        ∷ record { round = 2; low_round = 2; low = pos 1572864; high_round = 1; high = pos 1048576 } ∷ [] }
{}

/// Row: matching pennies, two rounds in units of 1: the ends come from different rounds.
pub fn trace_of_pennies()
    ensures { trace (record { round = 1; divisor = 1; low = negsuc 0; high = pos 1 }
        ∷ record { round = 2; divisor = 2; low = negsuc 1; high = pos 0 } ∷ [])
        ≡ record { round = 1; low_round = 1; low = negsuc 0; high_round = 1; high = pos 1 }
        ∷ record { round = 2; low_round = 1; low = negsuc 0; high_round = 2; high = pos 0 } ∷ [] }
{}

/// Row: two rounds of which the second counts twice: 5 over 3 is less than 2 over 1, and 7 over 3 more, so both ends
/// stay.
pub fn trace_by_divisors()
    ensures { trace (record { round = 1; divisor = 1; low = pos 2; high = pos 2 }
        ∷ record { round = 2; divisor = 3; low = pos 5; high = pos 7 } ∷ [])
        ≡ record { round = 1; low_round = 1; low = pos 2; high_round = 1; high = pos 2 }
        ∷ record { round = 2; low_round = 1; low = pos 2; high_round = 1; high = pos 2 } ∷ [] }
{}

/// Rows: the evaluated rounds of runs of 2, 3, 4, 3 and no rounds, with `every` 1, 2, 2, 7 and 1.
pub fn evaluated_rounds_of_short_runs()
    ensures each { evaluated_rounds 1 2 ≡ 1 ∷ 2 ∷ [] }
    ensures last { evaluated_rounds 2 3 ≡ 2 ∷ 3 ∷ [] }
    ensures multiple { evaluated_rounds 2 4 ≡ 2 ∷ 4 ∷ [] }
    ensures late { evaluated_rounds 7 3 ≡ 3 ∷ [] }
    ensures none { evaluated_rounds 1 0 ≡ [] }
{}
