//! What a board leaves.

use def_reply::TraceLine;
use xg_plan::{Plan, Reply};

/// A line for each offer, and both ends where a plan was offered, the lower one first.
#[derive(Drop)]
pub struct BoardParts {
    pub trace: Vec<TraceLine>,
    pub ends: Option<(PlanAndReply, PlanAndReply)>,
}

/// A player's plan, and the other player's reply to it; the worths are none of the reply's.
#[derive(Drop)]
pub struct PlanAndReply {
    pub plan: Plan,
    pub reply: Reply,
}
