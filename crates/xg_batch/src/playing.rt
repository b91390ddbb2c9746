//! Playing an accepted game.
ghost use Rattle.std.specs.Prelude.{◌≡◌, ◌≤◌, IfOk, IfSome, OnOk};
ghost use Rattle.std.specs.Thread.{IsSync};
ghost use Rattle.xg_io.specs.Calls.{sink_call};
ghost use Rattle.def_sums.specs.Limits.{most_workers};
ghost use Rattle.def_file.specs.Content.{GameFile};
ghost use Rattle.def_game_numbers.specs.Weighed.{weighed_game};
ghost use Rattle.def_program.specs.Text.{played_text};
ghost use Rattle.xg_engine.specs.Left.{IsLeftOf};
ghost use Rattle.xg_engine.specs.State.{AreWithinLimitsOf};
ghost use Rattle.xg_jobs.specs.Rows.{AreNumbersOf, ArePlainSums};
ghost use Rattle.xg_jobs.specs.Table.{IsTableOf};
ghost use Rattle.xg_load.specs.Endings.{Tells};

use crate::played_text::write_outcome;
use crate::rows::SharedRows;
use def_command::RowSettings;
use std::alloc::{AllocError, Global};
use std::marker::Sync;
use std::sync::Wait;
use std::thread::Threads;
use xg_board::MadeBy;
use xg_cert::Outcome;
use xg_engine::{Engine, Settings, Variant, head_with};
use xg_io::{Gate, Sink};
use xg_jobs::{JobTable, PlainRows, RowInput, Rows, ThreadedRows};
use xg_load::{AcceptedGame, Ending};

/// Plays the rounds that are asked, and writes the text of what they leave.
pub fn play<Rt: Threads + Wait + Sync, O: Sink, G: Gate>(
    rt: &Rt,
    alloc: Global,
    accepted: AcceptedGame,
    variant: Variant,
    settings: Settings,
    rows: RowSettings,
    out: &mut O,
    gate: &G,
) -> Ending
    requires limits { AreWithinLimitsOf variant settings }
    requires some { IfSome rows.workers (λ number. 1 ≤ number) }
    requires few { IfSome rows.workers (λ number. number ≤ most_workers) }
    ensures { Tells (played_text variant accepted settings) (sink_call O.Sink out.old out.new) result }
{
    if settings.rounds == 0 {
        let numbers = accepted.into_numbers();
        let outcome = Outcome::new(head_with(&numbers, settings), Vec::new(alloc), None);
        let ending = write_outcome(variant, numbers.form(), &outcome, out);
        drop(outcome);
        drop(numbers);
        return ending;
    }
    let Ok(mut engine) = accepted.into_engine(alloc) else {
        return Ending::NoMemory;
    };
    let ending = play_by(rt, alloc, &mut engine, variant, settings, rows, out, gate);
    drop(engine);
    ending
}

/// Plays the rounds on the engine of a game, and writes the text of what they leave.
fn play_by<Rt: Threads + Wait + Sync, O: Sink, G: Gate>(
    rt: &Rt,
    alloc: Global,
    engine: &mut Engine,
    variant: Variant,
    settings: Settings,
    rows: RowSettings,
    out: &mut O,
    gate: &G,
) -> Ending
    requires limits { AreWithinLimitsOf variant settings }
    requires some { IfSome rows.workers (λ number. 1 ≤ number) }
    requires few { IfSome rows.workers (λ number. number ≤ most_workers) }
    ensures { (game : GameFile) → engine.old.game ≡ weighed_game game
        → Tells (played_text variant game settings) (sink_call O.Sink out.old out.new) result }
{
    let Ok(()) = play_rounds(rt, alloc, engine, variant, settings, rows, gate) else {
        return Ending::NoMemory;
    };
    match engine.outcome() {
        Some(outcome) => write_outcome(variant, engine.form(), outcome, out),
        None => Ending::NoMemory,
    }
}

/// Plays the rounds: by threads with rows of their own where nobody said how many work, since one thread adds up its
/// rows faster than several workers add into shared ones, for every number of leaves that a file can have; with one
/// worker alone; else with workers who add into shared rows.
fn play_rounds<Rt: Threads + Wait + Sync, G: Gate>(
    rt: &Rt,
    alloc: Global,
    engine: &mut Engine,
    variant: Variant,
    settings: Settings,
    rows: RowSettings,
    gate: &G,
) -> Result<(), AllocError>
    requires limits { AreWithinLimitsOf variant settings }
    requires some { IfSome rows.workers (λ number. 1 ≤ number) }
    requires few { IfSome rows.workers (λ number. number ≤ most_workers) }
    ensures left { OnOk result (IsLeftOf variant engine.old.game settings engine.new) }
    ensures game { engine.new.game ≡ engine.old.game }
{
    let workers = match rows.workers {
        None => return play_threaded(rt, alloc, engine, variant, settings),
        Some(1) => return engine.run_variant(rt, alloc, variant, settings, &PlainRows),
        Some(workers) => workers,
    };
    let shared = SharedRows {
        workers,
        atomic: rows.atomic,
        gate,
    };
    let maker = MadeBy {
        make: |input: &RowInput<'_>, jobs: &JobTable| -> Result<Rows, AllocError>
            requires sync { IsSync Rt.row × IsSync G.row }
            requires numbers { AreNumbersOf input.now.form.now input.now.one.now input.now.two.now }
            requires table { IsTableOf input.now.form.now jobs.now }
            ensures { IfOk result (λ made. ArePlainSums input.now.form.now input.now.one.now input.now.two.now made) }
        { shared.rows(rt, alloc, input, jobs) },
    };
    engine.run_variant(rt, alloc, variant, settings, &maker)
}

/// Plays the rounds by threads with rows of their own.
fn play_threaded<Rt: Threads + Wait + Sync>(
    rt: &Rt,
    alloc: Global,
    engine: &mut Engine,
    variant: Variant,
    settings: Settings,
) -> Result<(), AllocError>
    requires { AreWithinLimitsOf variant settings }
    ensures left { OnOk result (IsLeftOf variant engine.old.game settings engine.new) }
    ensures game { engine.new.game ≡ engine.old.game }
{
    let maker = ThreadedRows::new(alloc, engine.form())?;
    let played = engine.run_variant(rt, alloc, variant, settings, &maker);
    drop(maker);
    played
}
