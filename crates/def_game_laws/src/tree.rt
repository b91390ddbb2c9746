//! Laws of `def_tree`: the players and the nested tree of an extensive game, in definitions alone, and the plain data
//! that its nodes hold.

ghost use Rattle.def_tree.specs.Events.{EntersInPrefixOrder, LeavesAfterLastChild, LeavesEachOnce};
ghost use Rattle.def_tree.specs.Links.{LinkRows, LinksTellChildren};
ghost use Rattle.def_tree.specs.Outcomes.{EachOutcomeAppears};
ghost use Rattle.def_tree.specs.Rules.{EachSetAppears, RuleRows, SetsAgreeOnSize};
ghost use Rattle.def_tree.specs.Tree.{ForestOfPrefix, PrefixOfForest, WholeIffTree};

/// The trees that a list of nodes gives have exactly these nodes in prefix order.
pub fn prefix_of_forest()
    ensures { PrefixOfForest }
{}

/// Trees whose nodes have as many children as they say are determined by their nodes in prefix order.
pub fn forest_of_prefix()
    ensures { ForestOfPrefix }
{}

/// A list of nodes is a whole tree exactly where it gives one tree, whose nodes have as many children as they say.
pub fn whole_iff_tree()
    ensures { WholeIffTree }
{}

/// By the rules of sets, all nodes of one set have equally many children.
pub fn sets_agree_on_size()
    ensures { SetsAgreeOnSize }
{}

/// By the rules of sets, each number from 1 to the count of a kind's sets is that of some node's set.
pub fn each_set_appears()
    ensures { EachSetAppears }
{}

/// Where outcomes are numbered by first appearance, each number from 1 to their count is that of some node's.
pub fn each_outcome_appears()
    ensures { EachOutcomeAppears }
{}

/// A walk enters each node once, in prefix order, under its number.
pub fn enters_in_prefix_order()
    ensures { EntersInPrefixOrder }
{}

/// A walk leaves each node once.
pub fn leaves_each_once()
    ensures { LeavesEachOnce }
{}

/// A walk through a tree leaves a node after its last child, with all that is below it, and before it enters any other
/// node.
pub fn leaves_after_last_child()
    ensures { LeavesAfterLastChild }
{}

/// A node's parent, first child and next sibling are what the lists of children say; the root has no parent and no
/// sibling.
pub fn links_tell_children()
    ensures { LinksTellChildren }
{}

/// The links of one leaf, of a chain, of matching pennies, and of two trees with leaves at several depths.
pub fn link_rows()
    ensures { LinkRows }
{}

/// A first node has 1 to 1,024 children; the next is in its set with as many, in the next set, or in another kind's
/// first; a leaf has neither set nor children; a tree has up to 1,048,576 nodes.
pub fn rule_rows()
    ensures { RuleRows }
{}
