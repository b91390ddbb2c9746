//! The paths through a game's tree: each player's own choices, perfect recall, and the numbers of sequences. Its laws
//! and worked rows are in `def_game_laws`.
#![tactic(auto)]
