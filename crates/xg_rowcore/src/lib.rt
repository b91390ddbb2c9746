#![tactic(auto)]
//! Rows that several workers add into, cut into stripes: what one job adds, and the totals of a stripe with the history
//! of the jobs that were added there.
//!
//! No lock and no thread stands here: each stripe is under a lock of the crates above.

mod amounts;
mod chains;
mod entries;
mod linked;
mod name;
mod packet;
mod places;
mod stripe;

pub use linked::LinkedRows;
pub use name::RowName;
pub use packet::Packet;
pub use places::USUAL_STRIPES;
pub use stripe::Stripe;
