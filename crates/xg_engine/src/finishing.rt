//! The outcome of a run that is over.
ghost use Rattle.std.specs.Prelude.{◌≡◌};
ghost use Rattle.std.specs.Option.{option_map};
ghost use Rattle.def_run.specs.Run.{outcome_with};
ghost use Rattle.xg_outcome.specs.Outcome.{end_seen, ends_seen, head_of};
ghost use Rattle.xg_engine.specs.Runs.{ends_of_parts};

use xg_bracket::{Board, BoardParts, PlanAndReply};
use xg_outcome::{End, Head, Outcome};

/// The outcome with the lines and the ends of the board themselves. Takes no memory.
#[tactic(auto, using(crate::proofs::PartsOfBoard::ends_of_board))]
pub(crate) fn outcome_with(head: Head, board: Board) -> Outcome
    ensures { result ≡ outcome_with (head_of head) board.board }
{
    let BoardParts { trace, ends } = board.into_parts();
    Outcome::new(head, trace, outcome_ends(ends))
}

fn outcome_ends(ends: Option<(PlanAndReply, PlanAndReply)>) -> Option<(End, End)>
    ensures { ends_seen result ≡ option_map ends_of_parts ends }
{
    match ends {
        Some((lower, upper)) => Some((outcome_end(lower), outcome_end(upper))),
        None => None,
    }
}

fn outcome_end(end: PlanAndReply) -> End
    ensures { end_seen result ≡ record { plan = end.plan; reply = end.reply.reply } }
{
    End {
        plan: end.plan,
        reply: end.reply,
    }
}
