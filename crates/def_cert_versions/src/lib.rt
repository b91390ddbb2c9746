//! The verdict on a certificate of either version, the upgrade from version 1 to version 2, and what the bracket of
//! player two's own payoff says. Its laws and other rows are in `def_text_laws`.
#![tactic(auto)]

pub mod rows;
