//! Numbers of a search's bracket: products that are compared without being worked out, and decimals that are a fraction
//! or none below it. Nothing in this crate takes memory.
#![tactic(auto)]

mod comparing;
mod exact;
mod rounding;

pub use comparing::is_at_most;
pub use exact::exact_decimal;
pub use rounding::{Rounded, rounded_up};
