//! What the bounds and the answers of the program leave no room for, and what bounds say of both players. There is no
//! code here: each function's contract is a law of the definitions, or rows that they give.

ghost use Rattle.def_program_laws.specs.Answers.{SuccessIsOfOneCheck, SuccessIsOfOneGame};
ghost use Rattle.def_program_laws.specs.Answers.{BatchesAreNeverRefused, PartsAreSolvedAlone};
ghost use Rattle.def_program_laws.specs.Answers.{UpgradesAreRefusedAsChecks};
ghost use Rattle.def_program_laws.specs.Bounds.{AcceptedSecondsBoundPlayerTwo, BoundsAreSharp};
ghost use Rattle.def_program_laws.specs.Bounds.{BoundsHoldForBothPlayers, ExploitabilityIsOne};
ghost use Rattle.def_program_laws.specs.BoundRows.{BothPlayersRows, ExploitabilityRows};

/// Two plans have one total exploitability.
pub fn exploitability_is_one()
    ensures { ExploitabilityIsOne }
{}

/// Rows: the exploitability of two plans of matching pennies, whose roots differ.
pub fn exploitability_rows()
    ensures { ExploitabilityRows }
{}

/// LOW is the greatest fraction that player one's printed plan is sure of, and HIGH the least that player two's printed
/// plan concedes at most.
pub fn bounds_are_sharp()
    ensures { BoundsAreSharp }
{}

/// LOW and HIGH bound what each player of an accepted file's game is expected to get, in the player's own payoffs, and
/// are apart by what both players together could gain.
pub fn bounds_hold_for_both_players()
    ensures { BoundsHoldForBothPlayers }
{}

/// Whoever wrote it, the second bracket of an accepted text of version 2 bounds what player two gets in the file's
/// game, in player two's own payoff.
pub fn accepted_seconds_bound_player_two()
    ensures { AcceptedSecondsBoundPlayerTwo }
{}

/// Rows: in matching pennies for one coin, of LOW 1/2 and HIGH 2/3 player two gets at most 1/2 and at least 1/3, and
/// both players together could gain 1/6.
pub fn both_players_rows()
    ensures { BothPlayersRows }
{}

/// A successful `solve`, `drill` or `plus` played one game, by one variant of rounds and with one choice of settings,
/// and wrote the text of just that.
pub fn success_is_of_one_game()
    ensures { SuccessIsOfOneGame }
{}

/// A batch is never refused.
pub fn batches_are_never_refused()
    ensures { BatchesAreNeverRefused }
{}

/// The part of a file of a batch that isn't too long is what is said of it alone.
pub fn parts_are_solved_alone()
    ensures { PartsAreSolvedAlone }
{}

/// A successful `check` or `upgrade` checked one certificate against one file, and wrote the verdict on it, or its
/// upgrade.
pub fn success_is_of_one_check()
    ensures { SuccessIsOfOneCheck }
{}

/// `upgrade` of two files is refused with a line exactly where `check` of them is refused with it.
pub fn upgrades_are_refused_as_checks()
    ensures { UpgradesAreRefusedAsChecks }
{}
