//! An accepted game from its file, or one that is made, and what is told of it; the line of a file that is refused, and
//! how a run ends.
#![tactic(auto)]

mod accepted;
mod ending;
mod fault_lines;
mod info;
mod loading;
mod made;

pub use accepted::AcceptedGame;
pub use ending::Ending;
pub use fault_lines::fault_line;
pub use info::tell;
pub use loading::{LoadFault, accept, load};
pub use made::{accepted_poker, write_poker};
