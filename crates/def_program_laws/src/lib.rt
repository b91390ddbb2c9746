//! Laws of the whole program: `check` accepts what `solve` and `drill` write, bounds and successes leave no room, and
//! rows lead from words and bytes to bytes. There is no code here; each function's contract is a law or rows.
#![tactic(auto)]

pub mod bounds;
pub mod rows;
pub mod solve_check;
