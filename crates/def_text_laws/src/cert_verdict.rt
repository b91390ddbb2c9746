//! Laws of `def_cert_verdict`: what a certificate says, the ranges of its numbers, the tests that it must pass, what
//! an accepted one shows, and verdicts on certificates of small games.

pub mod hidden;
pub mod laws;
pub mod order;
pub mod ranges;
pub mod small;
