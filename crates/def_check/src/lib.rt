//! Accepted files with their games in numbers, and what the check of a certificate against a file answers. Its laws
//! and worked rows are in `def_text_laws`.
#![tactic(auto)]

/// The greatest number of bytes of a certificate.
pub const MOST_CERT_BYTES: usize = 268_435_456;
