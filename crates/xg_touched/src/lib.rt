#![tactic(auto)]
//! The rows of a sequence form that the leaves of one job have, in rising order, and each row's first leaf of the job.

mod building;
mod summing;
mod touched;

pub use touched::TouchedRows;
