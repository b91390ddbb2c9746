//! The outside of the solver: files that are read whole, sinks that are written, texts that reach a sink by pages, and
//! the gate that workers pass. Each trait says for contracts what its calls do; the program's promises speak of the
//! outside by these words alone.
#![tactic(auto)]

mod named_page;
mod outside;
mod page;
mod reading;
mod real;
mod text;
mod writing;

pub use outside::{Failed, Files, Gate, OpenFault, OpenGate, Sink};
pub use reading::{ReadAllFault, read_all};
pub use real::{RealFiles, RealSink};
pub use text::{Writable, write_paged};
pub use writing::{WriteFault, write_all};
