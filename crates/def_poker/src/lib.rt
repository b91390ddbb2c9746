//! One-card poker: which cards are left, who wins and what the title says; and that the game has no fault. Its laws
//! and worked rows are in `def_strategy_laws`.
#![tactic(auto)]
