//! How far apart the ends of a run's bracket can be, before it is played. There is no code here; each function's
//! contract is a law, or rows that the definitions give.
#![tactic(auto)]

ghost use Rattle.std.specs.Prelude.{◌≡◌, [], ◌∷◌, map};
ghost use Rattle.def_tree.specs.declared.Player.TheVariants.{One, Two};
ghost use Rattle.def_plan.specs.Form.{placed};
ghost use Rattle.def_plan.specs.Kuhn.{kuhn};
ghost use Rattle.def_closing.specs.Laws.{BracketsClose, ClosingWidth, EvaluationsClose, GapsAreSpread, LesserIsSpread};
ghost use Rattle.def_closing.specs.Laws.{LinesClose, MassIsSpread, PlusBracketsClose, PlusClosingWidth};
ghost use Rattle.def_closing.specs.Laws.{PlusEvaluationsClose, PlusLinesClose, RangeIsSpread, ReachedWidth};
ghost use Rattle.def_closing.specs.Laws.{RootsAreLeast, RootsAreUp, SizesAreSpread, WidthsShrink};
ghost use Rattle.def_closing.specs.Width.{closing_width, form_spread, gap_at, plus_closing_width, reached_width};
ghost use Rattle.def_closing.specs.Width.{root_up, size_after};

/// A number is at most the square of its root, rounded up.
pub fn roots_are_up()
    ensures { RootsAreUp }
{}

/// No smaller number has such a square.
pub fn roots_are_least()
    ensures { RootsAreLeast }
{}

/// The mass is a spread of each set.
pub fn mass_is_spread()
    ensures { MassIsSpread }
{}

/// At each set the sizes of the weights of all leaves after it are a spread.
pub fn sizes_are_spread()
    ensures { SizesAreSpread }
{}

/// The most that one action can be worth more than another, against the best that the other player can do for it, is a
/// spread.
pub fn gaps_are_spread()
    ensures { GapsAreSpread }
{}

/// The range of what plans pay is a spread of each set.
pub fn range_is_spread()
    ensures { RangeIsSpread }
{}

/// At each set the lesser of two spreads is one.
pub fn lesser_is_spread()
    ensures { LesserIsSpread }
{}

/// After some rounds the ceiling of player two's sum of plans is above the floor of player one's by at most the bound.
pub fn evaluations_close()
    ensures { EvaluationsClose }
{}

/// The ends of a run's bracket are no further apart than the bound of its last round.
pub fn brackets_close()
    ensures { BracketsClose }
{}

/// The same after some rounds of CFR+, whose bound is twice as wide.
pub fn plus_evaluations_close()
    ensures { PlusEvaluationsClose }
{}

/// The ends of the bracket of a run of CFR+ are no further apart than the bound of its last round.
pub fn plus_brackets_close()
    ensures { PlusBracketsClose }
{}

/// On every game its numbers alone bound how wide the bracket of a run can be, before its rounds are played.
pub fn closing_width_is_kept()
    ensures { ClosingWidth }
{}

/// The same of a run of CFR+.
pub fn plus_closing_width_is_kept()
    ensures { PlusClosingWidth }
{}

/// Each line of a trace is no wider than the bound of its own round.
pub fn lines_close()
    ensures { LinesClose }
{}

/// The same of a run of CFR+.
pub fn plus_lines_close()
    ensures { PlusLinesClose }
{}

/// The width by the sets that one plan reaches holds as well.
pub fn reached_width_is_kept()
    ensures { ReachedWidth }
{}

/// After t * t rounds the width, over the rounds, is at most a part that shrinks with t, and one that lasts.
pub fn widths_shrink()
    ensures { WidthsShrink }
{}

/// Rows: Kuhn poker, whose unit is 6 and whose payoffs range over 4: after 100 rounds with plans of root 2^20 both
/// totals are at most 513966340 apart, which over the unit, the rounds and the root is 0.817.
pub fn widths_of_kuhn_poker()
    ensures roots { map root_up (0 ∷ 1 ∷ 2 ∷ 4 ∷ 5 ∷ 100 ∷ []) ≡ 0 ∷ 1 ∷ 2 ∷ 2 ∷ 3 ∷ 10 ∷ [] }
    ensures sizes_of_one { map (size_after One kuhn) (placed kuhn.sets_one) ≡ 14 ∷ 6 ∷ 14 ∷ 6 ∷ 14 ∷ 6 ∷ [] }
    ensures sizes_of_two { map (size_after Two kuhn) (placed kuhn.sets_two) ≡ 8 ∷ 6 ∷ 8 ∷ 6 ∷ 8 ∷ 6 ∷ [] }
    ensures gaps_of_one { map (gap_at One kuhn) (placed kuhn.sets_one) ≡ 6 ∷ 2 ∷ 6 ∷ 3 ∷ 6 ∷ 6 ∷ [] }
    ensures gaps_of_two { map (gap_at Two kuhn) (placed kuhn.sets_two) ≡ 3 ∷ 3 ∷ 2 ∷ 6 ∷ 4 ∷ 2 ∷ [] }
    ensures one_round { closing_width kuhn 1048576 1 ≡ 51381865 }
    ensures many { closing_width kuhn 1048576 100 ≡ 513966340 }
    ensures plans_of_one { closing_width kuhn 1 100 ≡ 10190 }
    ensures reached { reached_width kuhn 1048576 (form_spread One kuhn) (form_spread Two kuhn) 100 ≡ 513966340 }
    ensures plus { plus_closing_width kuhn 16384 10 ≡ 32121135 }
{}
