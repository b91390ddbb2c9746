//! Plans of one player in the sequence form (von Stengel 1996), what two of them pay, the rows of a form, which are
//! its leaf sums by sequence, the leaves of each sequence, and small games as forms. Its laws and worked rows are in
//! `def_strategy_laws`.
#![tactic(auto)]
