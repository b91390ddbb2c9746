//! Best replies, what bounds a plan, and the bracket: the best ends of several offers, and their trace. Its laws and
//! worked rows are in `def_strategy_laws`.
#![tactic(auto)]

/// The greatest number by which the bounds of an evaluation are divided: what the rounds up to its own weigh together.
///
/// The product of such a number and a total of a reply has room in 128 bits.
pub const MOST_DIVISOR: u32 = 4_194_304;

/// A line of the trace: a round that was evaluated, and both ends of the bracket after it, each with the round that it
/// comes from.
///
/// The ends are totals of best replies: in player one's payoff, times the unit and the root of the plan.
#[derive(Clone, Copy)]
pub struct TraceLine {
    pub round: u32,
    pub low_round: u32,
    pub low: i128,
    pub high_round: u32,
    pub high: i128,
}
