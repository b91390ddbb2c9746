//! Checks a certificate against the file of a game. It plays no round and takes no least or greatest number: whoever
//! wrote the certificate, what it accepts shows its bounds. The tests of plans and replies go over flat numbers: once
//! over the leaves, those of one sequence after the other, once over the values and once over the actions.
#![tactic(auto)]

mod adding;
mod checking;
mod ends;
mod heads;
mod judging;
mod lines;
mod parts;
mod plan_sums;
mod plans;
mod replies;
mod second;
mod testing;
mod totals;
mod verdict;

pub use checking::{accept, check};
pub use def_cert_text::CertFault;
pub use def_cert_verdict::Which;
pub use def_check::MOST_CERT_BYTES;
pub use def_file::FileFault;
pub use def_tree::Player;
pub use verdict::{Accepted, CheckFault, Verdict};
pub use xg_frac::Ratio;
