#![tactic(auto)]
//! What a run leaves: its head, its trace, and both ends of its bracket.

mod head;
mod outcome;

pub use def_reply::TraceLine;
pub use head::Head;
pub use outcome::{End, Outcome};
