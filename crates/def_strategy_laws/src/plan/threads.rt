//! The threads of a form's leaves, one for each sequence of a player.

ghost use Rattle.std.specs.Prelude.{◌≡◌, [], ◌∷◌, Some, None};
ghost use Rattle.def_tree.specs.declared.Player.TheVariants.{One, Two};
ghost use Rattle.def_plan.specs.Pennies.{pennies};
ghost use Rattle.def_plan.specs.SmallForms.{leaves_at_depths};
ghost use Rattle.def_plan.specs.Threads.{ThreadsListTheLeaves, first_leaf, next_leaf, leaf_numbers};

/// From a sequence's first leaf on, each next one after the other, come all leaves that have the sequence, each once,
/// in rising order.
pub fn threads_list_the_leaves()
    ensures { ThreadsListTheLeaves }
{}

/// Rows: in matching pennies the leaves of each sequence, none of which is empty, and the next leaves of each player.
pub fn threads_of_pennies()
    ensures one_nothing { first_leaf One 0 pennies.leaves ≡ None }
    ensures one_first { leaf_numbers One 1 pennies.leaves ≡ 1 ∷ 2 ∷ [] }
    ensures one_second { leaf_numbers One 2 pennies.leaves ≡ 3 ∷ 4 ∷ [] }
    ensures one_begins { first_leaf One 2 pennies.leaves ≡ Some 3 }
    ensures one_next { next_leaf One 1 pennies.leaves ≡ Some 2 }
    ensures one_ends { next_leaf One 2 pennies.leaves ≡ None }
    ensures two_nothing { first_leaf Two 0 pennies.leaves ≡ None }
    ensures two_first { leaf_numbers Two 1 pennies.leaves ≡ 1 ∷ 3 ∷ [] }
    ensures two_second { leaf_numbers Two 2 pennies.leaves ≡ 2 ∷ 4 ∷ [] }
    ensures two_begins { first_leaf Two 2 pennies.leaves ≡ Some 2 }
    ensures two_next { next_leaf Two 1 pennies.leaves ≡ Some 3 }
    ensures two_ends { next_leaf Two 4 pennies.leaves ≡ None }
{}

/// Rows: leaves at every depth, of which some have the empty sequence of either player or of both.
pub fn threads_of_leaves_at_depths()
    ensures one_empty { leaf_numbers One 0 leaves_at_depths ≡ 1 ∷ 5 ∷ [] }
    ensures one_empty_begins { first_leaf One 0 leaves_at_depths ≡ Some 1 }
    ensures one_empty_next { next_leaf One 1 leaves_at_depths ≡ Some 5 }
    ensures one_empty_ends { next_leaf One 5 leaves_at_depths ≡ None }
    ensures one_second { leaf_numbers One 2 leaves_at_depths ≡ 3 ∷ 4 ∷ [] }
    ensures one_last { next_leaf One 7 leaves_at_depths ≡ None }
    ensures two_empty { leaf_numbers Two 0 leaves_at_depths ≡ 1 ∷ 2 ∷ [] }
    ensures two_empty_ends { next_leaf Two 2 leaves_at_depths ≡ None }
    ensures two_second { leaf_numbers Two 2 leaves_at_depths ≡ 4 ∷ 6 ∷ 7 ∷ [] }
    ensures two_begins { first_leaf Two 2 leaves_at_depths ≡ Some 4 }
    ensures two_next { next_leaf Two 4 leaves_at_depths ≡ Some 6 }
    ensures two_ends { next_leaf Two 7 leaves_at_depths ≡ None }
    ensures no_third { first_leaf Two 3 leaves_at_depths ≡ None }
{}
