//! Closing the bracket of an accepted game.
ghost use Rattle.std.specs.Prelude.{◌≡◌, [], ◌∷◌, IfOk, IsTrue, length, true, false};
ghost use Rattle.def_close.specs.Plans.{ends_of_plans, one_line, pair_text, whole_line};
ghost use Rattle.def_game_numbers.specs.Weighed.{weighed_game};
ghost use Rattle.def_program.specs.Text.{form_of_file, game_head};
ghost use Rattle.def_outside.specs.Cause.{HasCause};
ghost use Rattle.def_outside.specs.Sinks.{Writes};
ghost use Rattle.xg_outcome.specs.Outcome.{end_seen};
ghost use Rattle.xg_close_words.specs.Limits.{AreWithinLimits};
ghost use Rattle.xg_io.specs.Calls.{sink_call};
ghost use Rattle.xg_jobs.specs.Table.{HasLeavesOf};
ghost use Rattle.xg_search.specs.Searches.{IsSearchOf, lower_of, upper_of};
ghost use Rattle.xg_close_run.specs.Endings.{Closes};
ghost use Rattle.xg_close_run.specs.Said.{SaysProgress};
ghost use Rattle.xg_close_run.specs.Searched.{IsSmallWidth, IsTrueIn, width_of};
ghost use Rattle.xg_close_run.specs.Widths.{IsShown, IsWidth};
ghost use Rattle.xg_close_lines.specs.Texts.{asked_text};

use crate::searching::{SearchedGame, search_on};
use crate::text::CertificateText;
use crate::width::{Width, width_asked};
use std::alloc::{AllocError, Global};
use xg_cert::{End, Outcome, TraceRow};
use xg_close_words::Asked;
use xg_engine::Settings;
use xg_io::{Sink, WriteFault, write_paged};
use xg_jobs::JobTable;
use xg_load::{AcceptedGame, Ending};
use xg_search::{PlanAndReply, Search};

/// All rounds that a certificate can have in one line, at the greatest scale.
const WHOLE_LINE: Settings = Settings {
    rounds: 65_536,
    every: 65_536,
    scale: 1_048_576,
};

/// What closing a bracket came to.
#[derive(Drop)]
pub(crate) struct Closing {
    pub(crate) ending: Ending,
    /// Whether the bracket got as narrow as asked.
    pub(crate) is_narrow: bool,
    /// Whether `err` took all that was said on the way.
    pub(crate) is_heard: bool,
}

/// An end without a search, before which nothing was said.
pub(crate) fn unsaid(ending: Ending) -> Closing
    ensures ending { result.ending ≡ ending }
    ensures wide { result.is_narrow ≡ false }
    ensures heard { result.is_heard ≡ true }
{
    Closing {
        ending,
        is_narrow: false,
        is_heard: true,
    }
}

/// Searches plans of an accepted game until the bracket is as narrow as asked, or all rounds are played, and writes the
/// certificate of the best ones.
pub(crate) fn close<O: Sink, E: Sink>(
    alloc: Global,
    asked: &Asked<'_>,
    accepted: &AcceptedGame,
    out: &mut O,
    err: &mut E,
) -> Closing
    requires limits { AreWithinLimits asked.now }
    ensures closes { Closes asked.now.width accepted.now (sink_call O.Sink out.old out.new) result.is_narrow
        result.ending }
    ensures said { SaysProgress (IsTrueIn (form_of_file accepted.now) (weighed_game accepted.now).unit asked.now.width)
        asked.now.quiet result.is_heard (sink_call E.Sink err.old err.new) }
    ensures quiet { IsTrue asked.now.quiet → err.new ≡ err.old }
{
    let Ok(width) = width_asked(alloc, asked.width, accepted) else {
        return unsaid(Ending::NoMemory);
    };
    let Ok(jobs) = table_of(alloc, accepted) else {
        return unsaid(Ending::NoMemory);
    };
    let closing = close_by(alloc, asked, &width, accepted, &jobs, out, err);
    drop(jobs);
    closing
}

/// The table of a game's leaves.
fn table_of(alloc: Global, accepted: &AcceptedGame) -> Result<JobTable, AllocError>
    ensures { IfOk result (HasLeavesOf (form_of_file accepted.now)) }
{
    let game = accepted.game();
    JobTable::without_rows(alloc, accepted.numbers().form(), game.tree())
}

/// The same with the table of the game's leaves.
fn close_by<O: Sink, E: Sink>(
    alloc: Global,
    asked: &Asked<'_>,
    width: &Width,
    accepted: &AcceptedGame,
    jobs: &JobTable,
    out: &mut O,
    err: &mut E,
) -> Closing
    requires limits { AreWithinLimits asked.now }
    requires width { IsWidth asked.now.width accepted.now (width_of width.now) }
    requires small { IsSmallWidth width.now }
    requires shown { IsShown asked.now.width (asked_text width.now.shown) }
    requires table { HasLeavesOf (form_of_file accepted.now) jobs.now }
    ensures closes { Closes asked.now.width accepted.now (sink_call O.Sink out.old out.new) result.is_narrow
        result.ending }
    ensures said { SaysProgress (IsTrueIn (form_of_file accepted.now) (weighed_game accepted.now).unit asked.now.width)
        asked.now.quiet result.is_heard (sink_call E.Sink err.old err.new) }
    ensures quiet { IsTrue asked.now.quiet → err.new ≡ err.old }
{
    let numbers = accepted.numbers();
    numbers.facts();
    let game = SearchedGame {
        form: numbers.form(),
        jobs,
        unit: numbers.unit(),
    };
    let Ok(trace) = empty_line(alloc) else {
        return unsaid(Ending::NoMemory);
    };
    let Ok(mut search) = Search::new(alloc, game.form, jobs) else {
        drop(trace);
        return unsaid(Ending::NoMemory);
    };
    let is_heard = search_on(asked, width, &game, &mut search, err);
    let is_narrow = game.is_closed(width, &search);
    let written = write_plans(accepted, trace, search, out);
    Closing {
        ending: Ending::of_written(written),
        is_narrow,
        is_heard,
    }
}

/// A trace of one line, which is written when the search is over.
fn empty_line(alloc: Global) -> Result<Vec<TraceRow>, AllocError>
    ensures { IfOk result (λ trace. length trace.items ≡ 1) }
{
    let mut trace = Vec::new(alloc);
    trace.push(TraceRow {
        round: 0,
        low_round: 0,
        low: 0,
        high_round: 0,
        high: 0,
    })?;
    Ok(trace)
}

/// What a search leaves, with its one line of trace. Takes no memory.
fn outcome_of(accepted: &AcceptedGame, mut trace: Vec<TraceRow>, search: Search) -> Outcome
    requires trace { length trace.items ≡ 1 }
    requires search { IsSearchOf (form_of_file accepted.now) search }
    ensures { result ≡ one_line (game_head accepted.now whole_line)
        (ends_of_plans (form_of_file accepted.now) (lower_of search).plan (upper_of search).plan) }
{
    let round = WHOLE_LINE.rounds;
    let line = TraceRow {
        round,
        low_round: round,
        low: search.low(),
        high_round: round,
        high: search.high(),
    };
    set_line(&mut trace, line);
    let (lower, upper) = search.into_ends();
    let ends = (end_of(lower), end_of(upper));
    Outcome::new(accepted.head(WHOLE_LINE), trace, Some(ends))
}

/// Makes this the only line of a trace of one line.
fn set_line(trace: &mut Vec<TraceRow>, line: TraceRow)
    requires { length trace.old.items ≡ 1 }
    ensures { trace.new.items ≡ line ∷ [] }
{
    trace.fill(line);
}

fn end_of(end: PlanAndReply) -> End
    ensures { end_seen result ≡ record { plan = end.plan; reply = end.reply.reply } }
{
    End {
        plan: end.plan,
        reply: end.reply,
    }
}

/// Writes the certificate of the plans that a search kept. Takes no memory.
fn write_plans<O: Sink>(
    accepted: &AcceptedGame,
    trace: Vec<TraceRow>,
    search: Search,
    out: &mut O,
) -> Result<(), WriteFault>
    requires trace { length trace.items ≡ 1 }
    requires search { IsSearchOf (form_of_file accepted.now) search }
    ensures text { Writes (O.written out.old) (O.written out.new)
        (pair_text accepted.now (lower_of search).plan (upper_of search).plan) result }
    ensures cause { HasCause (O.faults out.old) (O.faults out.new) result }
{
    let numbers = accepted.numbers();
    numbers.facts();
    numbers.form().facts();
    let outcome = outcome_of(accepted, trace, search);
    let text = CertificateText {
        form: numbers.form(),
        outcome: &outcome,
    };
    let written = write_paged(out, &text);
    drop(outcome);
    written
}
