//! The form of a game file as a relation in the format's own words, and its first fault by what could stand in its
//! place. Its laws and worked rows are in `def_game_laws`.
#![tactic(auto)]
