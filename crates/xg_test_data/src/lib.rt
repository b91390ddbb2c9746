#![tactic(auto)]
//! What tests of several crates are given, each once: game files, certificates, trees by their nodes, and gates, which
//! hold workers up. A worker that is held looks again for a limited number of turns, so that each test ends.

pub mod certificates;
mod counting;
mod delays;
mod event;
mod faults;
pub mod files;
mod held;
mod lines;
pub mod linked;
mod meeting;
pub mod nodes;

pub use counting::StripeCount;
pub use delays::Delays;
pub use faults::is_same_fault;
pub use held::{HeldPass, HeldStripe};
pub use lines::{is_same_line, is_same_trace};
pub use meeting::Meeting;
