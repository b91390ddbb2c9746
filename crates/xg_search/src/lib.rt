#![tactic(auto)]
//! The search of plans that close the bracket: of each player the best plan so far, with the other player's best reply.
//!
//! Two lanes of rounds of regret matching, in which the players learn in turn, look for better plans (Zinkevich and
//! others 2007; Tammelin 2014; Brown and Sandholm 2019; Farina and others 2021). Nothing is promised of what they find:
//! a plan is kept after a test that it is one, with a reply that was worked out anew. So the numbers of rounds are cut
//! to their words one by one, wherever they might pass them.

mod closing;
mod dealing;
mod evaluating;
mod factor;
mod first;
mod keeping;
mod lane;
mod numbers;
mod places;
mod room;
mod search;
mod seat;
mod summing;
mod turn;
mod units;
mod weights;

pub use search::Search;
pub use xg_bracket::PlanAndReply;
