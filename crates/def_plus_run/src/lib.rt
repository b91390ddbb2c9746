//! A run of CFR+ (Tammelin 2014): its evaluations and its bracket, as those of every run that sums plans, with rows of
//! example games. Its laws and worked rows are in `def_round_laws`.
#![tactic(auto)]
