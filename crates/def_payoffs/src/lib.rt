//! The range of what the leaves of a game pay player one. Its laws and worked rows are in `def_game_laws`.
#![tactic(auto)]
