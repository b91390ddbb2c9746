#![tactic(auto)]
//! A game in whole numbers: the unit by which its payoffs are multiplied, the weights of its leaves and their mass.

mod chance;
mod leaf;
mod nodes;
mod outer;
mod parts;
mod path;
mod products;
mod range;
mod walk_path;
mod weighing;
mod weights;

pub use range::PayoffRange;
pub use weighing::{payoff_range, weigh};
pub use weights::Weights;
pub use xg_game::{FileFault, Refused};
