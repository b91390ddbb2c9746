//! What the program means: the texts that it writes, what a call's words and files decide, and what holds of each
//! call. Its laws and other rows are in `def_text_laws`.
#![tactic(auto)]

pub mod texts;
