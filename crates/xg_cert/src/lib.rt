#![tactic(auto)]
//! The certificate of a run: what a run leaves, its text, and what a text says.

mod bounds;
mod cert;
mod cert_lines;
mod fields;
mod items;
mod lines;
mod lists;
mod printed;
mod read_lines;
mod read_lists;
mod reading;
mod refused;
mod scales;
mod second;
mod writing;

pub use cert::Cert;
pub use cert_lines::put_ends_line;
pub use def_cert_text::{CertFault, TextVersion};
pub use def_reply::TraceLine as TraceRow;
pub use lines::write_head;
pub use reading::read_cert;
pub use refused::CertRefused;
pub use scales::scale_of;
pub use second::second_end;
pub use writing::{write_cert, write_plus, write_upgraded};
pub use xg_outcome::{End, Head, Outcome};
