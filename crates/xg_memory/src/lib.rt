//! Files and sinks in memory, for tests: some fail where they are told to, and others never.
#![tactic(auto)]

mod memory_files;
mod memory_sink;
mod schedule;
mod stored;
mod sure_files;
mod sure_sink;

pub use memory_files::MemFiles;
pub use memory_sink::MemSink;
pub use schedule::Schedule;
pub use sure_files::SureFiles;
pub use sure_sink::SureSink;
