//! What two plans are expected to pay each player of a game whose leaves all pay both players together the same. Its
//! laws and worked rows are in `def_strategy_laws`.
#![tactic(auto)]
