//! A run over all rounds.
ghost use Rattle.std.specs.Prelude.{◌≡◌, ◌+◌, ◌<◌, IfOk, OnOk, length};
ghost use Rattle.def_reply.specs.Bracket.{evaluated_rounds};
ghost use Rattle.def_reply.specs.Offers.{board_after};
ghost use Rattle.def_run.specs.Run.{outcome_with};
ghost use Rattle.def_plus.specs.Variants.{rounds_of};
ghost use Rattle.def_plus_run.specs.VariantRun.{outcome_of};
ghost use Rattle.xg_outcome.specs.Outcome.{head_of};
ghost use Rattle.xg_engine.specs.Evaluations.{offers_upto};
ghost use Rattle.xg_engine.specs.Players.{StandAfter};
ghost use Rattle.xg_engine.specs.Runs.{IsAfter};
ghost use Rattle.xg_engine.specs.Sources.{CanMakeRows};
ghost use Rattle.xg_engine.specs.State.{AreWithinLimits, AreWithinLimitsOf, Asks};

use crate::evaluating::Evaluator;
use crate::finishing::outcome_with;
use crate::players::Players;
use crate::source::RowSource;
use def_command::Settings;
use def_plus::Variant;
use std::alloc::{AllocError, Global};
use std::sync::Wait;
use std::thread::Threads;
use xg_jobs::RowMaker;
use xg_outcome::{Head, Outcome};
use xg_plan::Plan;
use xg_seq::SeqForm;

/// What a run leaves.
#[derive(Drop)]
pub(crate) struct FinishedRun {
    pub(crate) outcome: Outcome,
    pub(crate) sum_one: Plan,
    pub(crate) sum_two: Plan,
}

/// A run between rounds.
#[derive(Drop)]
pub(crate) struct Run {
    pub(crate) players: Players,
    pub(crate) evaluator: Evaluator,
}

impl Run {
    fn new(
        alloc: Global,
        form: &SeqForm,
        variant: Variant,
        settings: Settings,
    ) -> Result<Run, AllocError>
        requires limits { AreWithinLimitsOf variant settings }
        ensures { IfOk result (λ run. IsAfter variant form.now settings 0 run) }
    {
        let Ok(players) = Players::new(alloc, form) else {
            return Err(AllocError);
        };
        let count = evaluation_count(settings);
        let Ok(evaluator) = Evaluator::new(alloc, form, count, variant) else {
            drop(players);
            return Err(AllocError);
        };
        Ok(Run { players, evaluator })
    }

    /// Plays the next round, and evaluates the sums of plans where this round is an evaluated one. The plans of the
    /// round after it are made ahead where these sums aren't asked for.
    fn step<Rt: Threads + Wait + Sync, M: RowMaker>(
        &mut self,
        source: &RowSource<'_, Rt, M>,
        variant: Variant,
        settings: Settings,
        so_far: u32,
    ) -> Result<(), AllocError>
        requires source { CanMakeRows Rt.row M.RowMaker source.now }
        requires limits { AreWithinLimitsOf variant settings }
        requires next { so_far < settings.rounds }
        requires run { IsAfter variant source.now.form.now settings so_far self.old }
        ensures { OnOk result (IsAfter variant source.now.form.now settings (so_far + 1) self.new) }
    {
        let round = so_far + 1;
        let is_evaluated = round % settings.every == 0 || round == settings.rounds;
        let Ok(()) = self
            .players
            .play_round(source, variant, settings.scale, so_far, !is_evaluated)
        else {
            return Err(AllocError);
        };
        if is_evaluated {
            let players = &self.players;
            let Ok(()) = self
                .evaluator
                .evaluate(source, round, &players.one.sum, &players.two.sum)
            else {
                return Err(AllocError);
            };
        }
        Ok(())
    }

    /// Plays all rounds.
    fn play_rounds<Rt: Threads + Wait + Sync, M: RowMaker>(
        &mut self,
        source: &RowSource<'_, Rt, M>,
        variant: Variant,
        settings: Settings,
    ) -> Result<(), AllocError>
        requires source { CanMakeRows Rt.row M.RowMaker source.now }
        requires limits { AreWithinLimitsOf variant settings }
        requires run { IsAfter variant source.now.form.now settings 0 self.old }
        ensures board { OnOk result (self.new.evaluator.board.board
            ≡ board_after (offers_upto variant source.now.form.now settings settings.rounds)) }
        ensures stand { OnOk result
            (StandAfter variant source.now.form.now settings.scale settings.rounds self.new.players) }
    {
        for so_far in 0..settings.rounds {
            let Ok(()) = self.step(source, variant, settings, so_far) else {
                return Err(AllocError);
            };
        }
        Ok(())
    }
}

/// Plays all rounds. Whatever outlives a round is made before the first one.
pub(crate) fn play<Rt: Threads + Wait + Sync, M: RowMaker>(
    source: &RowSource<'_, Rt, M>,
    variant: Variant,
    settings: Settings,
    head: Head,
) -> Result<FinishedRun, AllocError>
    requires source { CanMakeRows Rt.row M.RowMaker source.now }
    requires limits { AreWithinLimitsOf variant settings }
    requires head { Asks settings (head_of head) }
    ensures outcome { IfOk result (λ run. run.outcome ≡ outcome_of variant source.now.form.now (head_of head)) }
    ensures sum_one { IfOk result (λ run.
        run.sum_one ≡ (rounds_of variant source.now.form.now settings.scale settings.rounds).sum_one) }
    ensures sum_two { IfOk result (λ run.
        run.sum_two ≡ (rounds_of variant source.now.form.now settings.scale settings.rounds).sum_two) }
{
    let Ok(mut run) = Run::new(source.alloc, source.form, variant, settings) else {
        return Err(AllocError);
    };
    match run.play_rounds(source, variant, settings) {
        Ok(()) => Ok(finish(head, run)),
        Err(error) => {
            drop(run);
            Err(error)
        }
    }
}

// How many rounds are evaluated.
fn evaluation_count(settings: Settings) -> u32
    requires limits { AreWithinLimits settings }
    ensures { result ≡ length (evaluated_rounds settings.every settings.rounds) }
{
    (settings.rounds + settings.every - 1) / settings.every
}

// What is left of a run after its last round. Takes no memory.
fn finish(head: Head, run: Run) -> FinishedRun
    ensures outcome { result.outcome ≡ outcome_with (head_of head) run.evaluator.board.board }
    ensures sum_one { result.sum_one ≡ run.players.one.sum }
    ensures sum_two { result.sum_two ≡ run.players.two.sum }
{
    let Run { players, evaluator } = run;
    let Players { one, two, rows, .. } = players;
    let Evaluator {
        board,
        room,
        reply_one,
        reply_two,
    } = evaluator;
    // By a call each: what the end of a function drops is taken apart there.
    drop(rows);
    drop(room);
    drop(reply_one);
    drop(reply_two);
    FinishedRun {
        outcome: outcome_with(head, board),
        sum_one: one.into_sum(),
        sum_two: two.into_sum(),
    }
}
