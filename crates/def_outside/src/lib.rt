//! What the files and the sinks that a call is handed did in it: the count of an object's faults, and the bytes that a
//! sink was given. Its laws and worked rows are in `def_game_laws`.
#![tactic(auto)]
