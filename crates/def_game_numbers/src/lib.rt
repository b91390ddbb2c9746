//! The numbers of a game file: what weighing its leaves answers, and the sequence form that stands on it. Its laws and
//! worked rows are in `def_strategy_laws`.
#![tactic(auto)]
