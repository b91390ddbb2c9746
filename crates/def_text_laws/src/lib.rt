//! What holds of certificates and of their texts, of files and batches, of words, and of what the program writes. Each
//! module has the laws of the crate of its name, `def_NAME`; a law or a row is the contract of a function without
//! code. Nothing stands on this crate, so no proof of the program waits for it.
#![tactic(auto)]

pub mod batch;
pub mod cert_accepted;
pub mod cert_text;
pub mod cert_verdict;
pub mod cert_versions;
pub mod check;
pub mod command;
pub mod program;
