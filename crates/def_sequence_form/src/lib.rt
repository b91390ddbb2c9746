//! The information sets of a game's tree, its sequence form, its list of leaves, and example games as trees. Its laws
//! and worked rows are in `def_strategy_laws`.
#![tactic(auto)]
