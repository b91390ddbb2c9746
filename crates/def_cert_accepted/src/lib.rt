//! The certificate of a run, and that it is accepted. Its laws and worked rows are in `def_text_laws`.
#![tactic(auto)]
