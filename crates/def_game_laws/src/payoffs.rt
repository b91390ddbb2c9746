//! Laws of `def_payoffs`: the range of what the leaves of a game pay player one.

ghost use Rattle.def_payoffs.specs.Laws.{PayoffRows, RangesHaveOneValue};

/// Two ranges of the same payoffs have the same values.
pub fn ranges_have_one_value()
    ensures { RangesHaveOneValue }
{}

/// Rows: the payoffs of a game, and their range.
pub fn payoff_rows()
    ensures { PayoffRows }
{}
