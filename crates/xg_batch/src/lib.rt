//! Games that are solved, and the text of what their rounds leave: one alone, or those of several files side by side.
//! Of several each worker solves its own files, one after the other, and keeps its items until all workers are done.
#![tactic(auto)]

mod batch;
mod batch_text;
mod crew;
mod entry;
mod item;
mod played_text;
mod playing;
mod rows;
mod solving;
mod worker;
mod writing;

pub use batch::solve_all;
pub use entry::{Entry, FileBytes};
pub use item::Item;
pub use playing::play;
pub use writing::write_batch;
