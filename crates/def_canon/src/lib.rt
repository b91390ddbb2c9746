//! The canonical form of a game, and one-card poker, the game that is made and written in it. Its laws and worked rows
//! are in `def_game_laws`.
#![tactic(auto)]
