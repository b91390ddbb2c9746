#![tactic(auto)]
//! Rounds of CFR+ (Tammelin 2014) on a game in numbers, and the bracket that they leave.

mod plus_engine;

pub use plus_engine::PlusEngine;
pub use xg_cert::write_plus;
pub use xg_engine::Settings;
