//! One-card poker: definitions.

ghost use Rattle.def_canon.specs.PokerLaws.{PokerIsGame, PokerIsReadBack, PokerIsShort};
ghost use Rattle.def_canon.specs.PokerRows.{PokerRows};

/// The game with two cards has this text and 21 nodes, and that with three has 58.
pub fn poker_rows()
    ensures { PokerRows }
{}

/// With 2 to 64 cards the entries have no fault, and their nodes are one whole tree.
pub fn poker_is_game()
    ensures { PokerIsGame }
{}

/// And the canonical form is a file that stands for this game, and is read as it.
pub fn poker_is_read_back()
    ensures { PokerIsReadBack }
{}

/// And this file isn't too long to be read.
pub fn poker_is_short()
    ensures { PokerIsShort }
{}
