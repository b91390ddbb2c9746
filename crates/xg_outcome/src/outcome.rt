//! The outcome of a run: its trace, and both ends of its bracket.
ghost use Rattle.std.specs.Prelude.{◌≡◌};
ghost use Rattle.xg_outcome.specs.Outcome.{head_of, outcome_seen, shown_ends};

use crate::head::Head;
use def_reply::TraceLine;
use std::marker::Model;
use xg_plan::{Plan, Reply};

/// A player's plan at an end of the bracket, and the other player's best reply to it.
#[derive(Drop)]
pub struct End {
    pub plan: Plan,
    pub reply: Reply,
}

/// What a run leaves: its head, its trace, and where a round was asked both ends of the bracket.
///
/// The first end is the lower one: player one's plan, with player two's reply.
#[derive(Drop)]
pub struct Outcome {
    head: Head,
    trace: Vec<TraceLine>,
    ends: Option<(End, End)>,
}

impl Model for Outcome {
    ghost use Rattle.def_reply.specs.Outcome as kept;
    ghost use Rattle.xg_outcome.specs.Outcome.{outcome_seen};

    ghost Value = { kept.Outcome };

    ghost view = { λ o. outcome_seen o.head o.trace.items o.ends };
}

impl Outcome {
    /// The outcome of these parts.
    pub fn new(head: Head, trace: Vec<TraceLine>, ends: Option<(End, End)>) -> Outcome
        ensures { result ≡ outcome_seen head trace.items ends }
    {
        Outcome { head, trace, ends }
    }

    /// The game's numbers, and what was asked.
    pub fn head(&self) -> &Head
        ensures { head_of result.now ≡ self.now.head }
    {
        &self.head
    }

    /// A line for each evaluation.
    pub fn trace(&self) -> &[TraceLine]
        ensures { result.now ≡ self.now.trace }
    {
        &self.trace
    }

    /// Both ends, the lower one first.
    pub fn ends(&self) -> Option<(&End, &End)>
        ensures { shown_ends result ≡ self.now.ends }
    {
        match &self.ends {
            Some((lower, upper)) => Some((lower, upper)),
            None => None,
        }
    }
}
