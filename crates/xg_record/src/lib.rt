//! What an entry of a game file says, as plain data.
#![tactic(auto)]

mod action;
mod entry;
mod payoffs;
mod record;
mod views;

pub use action::{Action, Actions};
pub use def_file::EntryKind;
pub use entry::{EntryActions, EntryView};
pub use payoffs::Payoffs;
pub use record::Record;
pub use views::{ActionView, ActionViews, view_again};
