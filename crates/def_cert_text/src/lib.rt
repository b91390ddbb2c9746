//! The text of a certificate in both versions: one definition for who writes it and who reads it, with texts that are
//! known from outside. Its laws and worked rows are in `def_text_laws`.
#![tactic(auto)]

mod fault;
mod version;

pub use fault::CertFault;
pub use version::TextVersion;
