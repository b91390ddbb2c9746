//! What several workers share: the table of their rights, and what lies under the locks, which is the bag of jobs that
//! nobody has drawn and the stripes, each with its seat of the table. What is done there is a step of the core of draws
//! and additions.
#![tactic(auto)]

mod bag;
mod rule;
mod steps;
mod stripe;
mod view;

pub use bag::Bag;
pub use rule::{Cut, RightsRule};
pub use steps::{RightsBadge, RightsSeat, RightsTable, SharedRights, cut, load, meet, open};
pub use stripe::SeatedStripe;
pub use view::{CODE_BASE, Right, View};
