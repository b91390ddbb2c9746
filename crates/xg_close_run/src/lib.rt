//! All that `xg_close` does, from what is asked to its exit status.
#![tactic(auto)]

mod closing;
mod program;
mod searching;
mod text;
mod width;

pub use program::run;
