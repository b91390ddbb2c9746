//! Example games as forms.

ghost use Rattle.std.specs.Prelude.{◌≡◌};
ghost use Rattle.def_plan.specs.Kuhn.{kuhn};
ghost use Rattle.def_plan.specs.KuhnLeaves.{written_leaves};

/// Row: the form has the leaves that are written out, five for each of six deals.
pub fn leaves_of_kuhn_poker()
    ensures { kuhn.leaves ≡ written_leaves }
{}
