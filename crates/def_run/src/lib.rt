//! A run: the evaluations and the bracket of rounds that sum plans, whatever they weigh, and those of plain rounds,
//! with rows of example games. Its laws and worked rows are in `def_round_laws`.
#![tactic(auto)]
