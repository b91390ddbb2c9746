//! The faults of a game in a tree, and what a game without one is.

ghost use Rattle.def_game_scale.specs.FaultLaws.{GameFaultIsFirst, NumberFaultIsFirst};
ghost use Rattle.def_game_scale.specs.FaultLaws.{NoFaultIsSound, NoNumberFaultIsSound};
ghost use Rattle.def_game_scale.specs.FaultRows.{FaultlessRows, GameFaultRows, OrderRows};

/// With tables in lowest terms, `number_fault` answers a fault exactly where it is the first one of the numbers, and
/// none exactly where each node passes each walk.
pub fn number_fault_is_first()
    ensures { NumberFaultIsFirst }
{}

/// With tables in lowest terms, `game_fault` answers a fault exactly where it is the first one, and none exactly where
/// each node passes each walk and recall is perfect.
pub fn game_fault_is_first()
    ensures { GameFaultIsFirst }
{}

/// With tables in lowest terms and no fault of the numbers, chance plays by probabilities, all leaves' payoffs add up
/// to the same number, and the unit, this sum in it and the mass are within the limit.
pub fn no_number_fault_is_sound()
    ensures { NoNumberFaultIsSound }
{}

/// With tables in lowest terms, a game without a fault has sound numbers and perfect recall.
pub fn no_fault_is_sound()
    ensures { NoFaultIsSound }
{}

/// Each of the five faults is that of a small game; three probabilities of 0.333333 don't add up to 1, and three of
/// 1/3 do.
pub fn game_fault_rows()
    ensures { GameFaultRows }
{}

/// Of a small game's faults the one is answered that comes first by the order of the walks, the nodes and the tests at
/// a node.
pub fn order_rows()
    ensures { OrderRows }
{}

/// These games have no fault, and these sums, units, weights and masses; a mass, a unit or a sum in the unit of exactly
/// 2^62 is allowed.
pub fn faultless_rows()
    ensures { FaultlessRows }
{}
