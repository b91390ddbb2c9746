//! The jobs into which the sum over a game's leaves is cut, and the history of additions of several workers: draws,
//! rights, packets, stripes, and the rows that are left at the end. Its laws and worked rows are in
//! `def_history_laws`.
#![tactic(auto)]

pub mod jobs;
