#![tactic(auto)]
//! The engine: a game in numbers, the rounds that are played on it, and the bracket that they leave.

mod asking;
mod engine;
mod evaluating;
mod finishing;
mod players;
mod running;
mod source;
mod turns;

pub use asking::head_with;
pub use def_command::Settings;
pub use def_plus::Variant;
pub use engine::Engine;
