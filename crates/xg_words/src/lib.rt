//! Rows as atomic words: workers claim jobs and add what these bring, and wait for nobody. The rows come out the same
//! for every number of workers and in whatever order they run.
#![tactic(auto)]

mod board;
mod counts;
mod crew;
mod fitting;
mod maker;
mod owner;
mod run;
mod total;
mod worker;

pub use board::WordBoard;
pub use fitting::fits;
pub use maker::AtomicRows;
pub use owner::Owner;
pub use run::run_words;
pub use worker::Worker;
