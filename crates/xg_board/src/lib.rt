#![tactic(auto)]
//! Workers that draw jobs and add into rows behind locks: the board that they share, what each of them holds, and the
//! gathering at the end. The rows come out the same for every number of workers and stripes.

mod base;
mod board;
mod close;
mod maker;
mod open;
mod pass;
mod purse;
mod run;

pub use base::Base;
pub use board::RowBoard;
pub use maker::{LockedRows, MadeBy};
pub use pass::Pass;
pub use purse::Purse;
pub use run::run_rows;
