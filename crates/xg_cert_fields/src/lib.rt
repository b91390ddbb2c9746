//! Reads the fields of a certificate's text one after another: words, numbers, fractions, and the separator behind
//! each. Nothing in this crate takes memory.
#![tactic(auto)]

mod numbers;
mod reader;

pub use def_cert_text::{CertFault, TextVersion};
pub use reader::{EndedNumber, FieldReader};
