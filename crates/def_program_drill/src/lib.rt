//! `drill` is never refused: its words mean the text of `solve` for one-card poker, and nothing else. There is no code
//! here; each function's contract is a law.
#![tactic(auto)]

ghost use Rattle.def_program_drill.specs.Drill.{DrillsHaveTheirBounds, DrillsSucceed, PokerIsAccepted};

/// With 2 to 64 cards the canonical form of one-card poker is a file that is accepted as one-card poker.
pub fn poker_is_accepted()
    ensures { PokerIsAccepted }
{}

/// Words of `drill` mean a success, the text of `solve` for one-card poker, and no other answer.
pub fn drills_succeed()
    ensures { DrillsSucceed }
{}

/// After a round or more this text has its bounds, and they hold.
pub fn drills_have_their_bounds()
    ensures { DrillsHaveTheirBounds }
{}
