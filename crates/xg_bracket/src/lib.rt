#![tactic(auto)]
//! The bracket: of the plans that are offered after rounds the ones with the best bounds, and a line for each offer.

mod board;
mod end;
mod parts;
mod weighing;

pub use board::Board;
pub use def_plus::Variant;
pub use def_reply::TraceLine;
pub use parts::{BoardParts, PlanAndReply};
