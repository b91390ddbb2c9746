#![tactic(auto)]
//! Strategies in whole numbers: plans, plays and replies, the plan that a play deals, sums of plans, and the test of a
//! plan.

mod adding;
mod checking;
mod dealing;
mod plan;
mod play;
mod reply;

pub use adding::{add_times, add_to};
pub use checking::{bad_set, is_plan};
pub use dealing::from_play;
pub use def_tree::Player;
pub use plan::Plan;
pub use play::Play;
pub use reply::Reply;
