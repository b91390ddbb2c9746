//! Laws of `def_canon`: the canonical form of a game, and one-card poker, the game that is made and written in it.

pub mod poker;

ghost use Rattle.def_canon.specs.Described.{DescribedHaveNoFault};
ghost use Rattle.def_canon.specs.Laws.{CanonIsReadBack, CanonOfFaultless, CanonOfFile, CanonOfMade, CanonStandsForGame};

/// Entries that describe their sets and their outcomes whole, each in one way, have no fault.
pub fn described_have_no_fault()
    ensures { DescribedHaveNoFault }
{}

/// The canonical form of a game that entries can describe is a file that stands for this game.
pub fn canon_stands_for_game()
    ensures { CanonStandsForGame }
{}

/// It is read as this game.
pub fn canon_is_read_back()
    ensures { CanonIsReadBack }
{}

/// The canonical form of a game of faultless entries that can be written is a file that stands for this game, however
/// much each entry leaves out of its set and its outcome.
pub fn canon_of_faultless()
    ensures { CanonOfFaultless }
{}

/// The canonical form of a game that a file stands for is a file that stands for this game, too, and is read as it.
pub fn canon_of_file()
    ensures { CanonOfFile }
{}

/// So is that of a game that was made entry by entry, where a player's actions have no probability.
pub fn canon_of_made()
    ensures { CanonOfMade }
{}
