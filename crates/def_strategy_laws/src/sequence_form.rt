//! Laws of `def_sequence_form`: the information sets of a game's tree, its sequence form, its list of leaves, and
//! example games as trees.

pub mod examples;

ghost use Rattle.def_sequence_form.specs.Laws.{FormHasTheLeafList, FormHasTheMass, FormIsInOrder, FormNumbersAsTheTree};
ghost use Rattle.def_sequence_form.specs.Laws.{SetsAreExact, SetsHaveTheirNodes, TreeSetsTellNodes};
ghost use Rattle.def_sequence_form.specs.Rows.{FormRows, LeafListRows};
ghost use Rattle.def_sequence_form.specs.SetNodes.{SetNodeRows, SetsListTheirNodes};

/// In a game tree each set has actions, and the sequence before it comes before its own.
pub fn form_is_in_order()
    ensures { FormIsInOrder }
{}

/// There are sets exactly where both players have perfect recall, and otherwise its first break.
pub fn sets_are_exact()
    ensures { SetsAreExact }
{}

/// With perfect recall a set's sequence before it and its actions are those of each of its nodes.
pub fn sets_have_their_nodes()
    ensures { SetsHaveTheirNodes }
{}

/// The form counts and places a tree's sequences as they are numbered in the tree, and has no more of them than nodes.
pub fn form_numbers_as_the_tree()
    ensures { FormNumbersAsTheTree }
{}

/// The form has the leaves of the tree's list, each with sequences that end with its last own choices; with perfect
/// recall these tell all its own choices.
pub fn form_has_the_leaf_list()
    ensures { FormHasTheLeafList }
{}

/// The sizes of the form's weights add up to the game's mass.
pub fn form_has_the_mass()
    ensures { FormHasTheMass }
{}

/// What is answered of the sets at each node is the number of the sequence that ends with its player's last own choice.
pub fn tree_sets_tell_nodes()
    ensures { TreeSetsTellNodes }
{}

/// A set's first node and the next nodes after it are exactly the set's nodes, each once and in rising order; where no
/// player moves there is no next one.
pub fn sets_list_their_nodes()
    ensures { SetsListTheirNodes }
{}

/// Rows: the nodes of the sets of matching pennies, and of a game whose sets have nodes far apart.
pub fn set_node_rows()
    ensures { SetNodeRows }
{}

/// Rows: the forms of matching pennies and of an uneven game, that game's sets, and the breaks of two games.
pub fn form_rows()
    ensures { FormRows }
{}

/// Rows: the list of leaves of a game with chance that isn't of constant sum.
pub fn leaf_list_rows()
    ensures { LeafListRows }
{}
