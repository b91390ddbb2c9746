//! Payoffs and chances of a tree as whole numbers: its sum, its unit, its weights and its mass, and which game has a
//! fault in its numbers, the first one. Its laws and worked rows are in `def_game_laws`.
#![tactic(auto)]
