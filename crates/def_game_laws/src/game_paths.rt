//! Laws of `def_game_paths`: the paths through a game's tree: each player's own choices, perfect recall, and the
//! numbers of sequences.

ghost use Rattle.def_game_paths.specs.Paths.{OwnChoicesAreMoves, ParentsComeBefore, PathsAreDepths, PathsLeadToNodes};
ghost use Rattle.def_game_paths.specs.Paths.{VisitsArePrefix};
ghost use Rattle.def_game_paths.specs.Recall.{BreakIsFirst, NoBreakIffRecall};
ghost use Rattle.def_game_paths.specs.Rows.{RecallRows, SequenceRows};
ghost use Rattle.def_game_paths.specs.Sequences.{EachSequenceIsInRange, FirstsAreFirst, SequencesAreFew};
ghost use Rattle.def_game_paths.specs.Sequences.{NumbersAreKnownOnTheWay, NumbersFindTheBreak, NumbersTellChoices};
ghost use Rattle.def_game_paths.specs.Sequences.{SequencesNameChoices, SetsAreInOrder};

/// The nodes that are visited are those of the tree, in prefix order.
pub fn visits_are_prefix()
    ensures { VisitsArePrefix }
{}

/// In one tree, each visit's path leads from the root to its node, child by child.
pub fn paths_lead_to_nodes()
    ensures { PathsLeadToNodes }
{}

/// In a tree, the path of a node is that of its parent, which is visited before, with one move more.
pub fn parents_come_before()
    ensures { ParentsComeBefore }
{}

/// A path has as many moves as its node is below the root.
pub fn paths_are_depths()
    ensures { PathsAreDepths }
{}

/// A player's own choices on a path are all its moves at the player's nodes, each by its set and its action.
pub fn own_choices_are_moves()
    ensures { OwnChoicesAreMoves }
{}

/// A tree has no break of recall exactly where it has perfect recall.
pub fn no_break_iff_recall()
    ensures { NoBreakIffRecall }
{}

/// A break is a player's node whose own choices differ from those at the first node of its set, and no node before it
/// is one.
pub fn break_is_first()
    ensures { BreakIsFirst }
{}

/// In a game's tree, the sequence before a set has a smaller number than those that end at it.
pub fn sets_are_in_order()
    ensures { SetsAreInOrder }
{}

/// In a game's tree with perfect recall, a player has one number of sequence at two nodes exactly where the choices
/// before them are the same.
pub fn numbers_tell_choices()
    ensures { NumbersTellChoices }
{}

/// A sequence's number names the set and the action at which it ends, each number from 1 to the count of actions does,
/// and 0 names none.
pub fn sequences_name_choices()
    ensures { SequencesNameChoices }
{}

/// In a game's tree, the own choices on a path are actions of the player's sets, and the number of the sequence is one
/// of all.
pub fn each_sequence_is_in_range()
    ensures { EachSequenceIsInRange }
{}

/// A set has 1 to 1,024 actions, and a game has no more sets or sequences of a kind than nodes.
pub fn sequences_are_few()
    ensures { SequencesAreFew }
{}

/// In a game's tree, the i-th of the first nodes is in set i, and is the one that a search for the first node of this
/// set finds.
pub fn firsts_are_first()
    ensures { FirstsAreFirst }
{}

/// In a game's tree, the nodes before a node tell the number of the sequence there.
pub fn numbers_are_known_on_the_way()
    ensures { NumbersAreKnownOnTheWay }
{}

/// In a game's tree, comparing numbers of sequences finds the same break of recall as comparing choices.
pub fn numbers_find_the_break()
    ensures { NumbersFindTheBreak }
{}

/// Recall breaks where a set of player one or two holds a node and one below it, by choices and by numbers; it doesn't
/// in matching pennies, nor where chance forgets.
pub fn recall_rows()
    ensures { RecallRows }
{}

/// In matching pennies each player has one set of two actions, and the leaves have the sequences 1, 1, 2, 2 of player
/// one and 1, 2, 1, 2 of player two.
pub fn sequence_rows()
    ensures { SequenceRows }
{}
