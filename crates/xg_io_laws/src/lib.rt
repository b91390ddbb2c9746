//! What the words of a call say of one open, one read and one write: `files_call` and `sink_call` see the states before
//! and after it, each on its own side. Each function makes the call and answers whether it failed.
#![tactic(auto)]

mod seen;

pub use seen::{open_is_seen, read_is_seen, write_is_seen};
