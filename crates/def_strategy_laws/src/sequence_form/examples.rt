//! Example games as trees: their units, their masses and their sequence forms.

ghost use Rattle.def_sequence_form.specs.HiddenTree.{HiddenRows};
ghost use Rattle.def_sequence_form.specs.KuhnTree.{KuhnRows};
ghost use Rattle.def_sequence_form.specs.SmallTrees.{SmallRows};

/// Rows: the game as a tree: its unit 3, its mass 94 and its sequence form.
pub fn hidden_rows()
    ensures { HiddenRows }
{}

/// Rows: Kuhn poker as a tree: its first three leaves, its unit 6, its mass 42 and its sequence form.
pub fn kuhn_rows()
    ensures { KuhnRows }
{}

/// Rows: the smallest games as trees: the forms of matching pennies and of one mover, the sets of three actions, units
/// and masses.
pub fn small_rows()
    ensures { SmallRows }
{}
