//! The engine: a game in numbers, with what its last run left.
ghost use Rattle.std.specs.Prelude.{◌≡◌, Err, IfOk, None, OnErr, OnOk, Some, false};
ghost use Rattle.std.specs.Option.{option_map};
ghost use Rattle.std.specs.Thread.{IsSync};
ghost use Rattle.def_cert_verdict.specs.Laws.{IsHeadOf};
ghost use Rattle.def_file.specs.declared.FileFault.{FileFault};
ghost use Rattle.def_game_numbers.specs.Numbers.{game_file_fault};
ghost use Rattle.xg_outcome.specs.Outcome.{head_of};
ghost use Rattle.def_plus.specs.declared.Variant.TheVariants.{Plain};
ghost use Rattle.xg_engine.specs.Left.{IsLeftOf};
ghost use Rattle.xg_engine.specs.State.{AreWithinLimits, AreWithinLimitsOf, Asks, head_with};
ghost use Rattle.def_game_numbers.specs.Weighed.{weighed_game};
ghost use Rattle.xg_jobs.specs.Table.{HasLeavesOf, Serves};

use crate::asking::head_with;
use crate::running::{FinishedRun, play};
use crate::source::RowSource;
use def_command::Settings;
use def_plus::Variant;
use std::alloc::{AllocError, Global};
use std::marker::Model;
use std::sync::Wait;
use std::thread::Threads;
use xg_game::{FileFault, Game, Refused};
use xg_jobs::{JobTable, RowMaker};
use xg_numbers::Numbers;
use xg_outcome::{Head, Outcome};
use xg_plan::Plan;
use xg_seq::SeqForm;

/// A game in numbers, ready for rounds, with what its last run left.
#[derive(Drop)]
pub struct Engine {
    numbers: Numbers,
    jobs: JobTable,
    last_run: Option<FinishedRun>,
}

impl Model for Engine {
    ghost use Rattle.xg_jobs.specs.Table.{HasLeavesOf};
    ghost use Rattle.xg_engine.specs.Engines.{engine_state};
    ghost use Rattle.xg_engine.specs.State.{EngineState};

    ghost Value = { EngineState };

    ghost view = { λ e. engine_state e.numbers e.last_run };

    ghost invariant = { λ e. HasLeavesOf e.numbers.form e.jobs };
}

impl Engine {
    /// The game in numbers, or its first fault: of the probabilities, payoffs and weights, and then of recall.
    pub fn open(alloc: Global, game: &Game) -> Result<Engine, Refused>
        ensures opened { IfOk result (λ engine. engine.game ≡ weighed_game game.now) }
        ensures no_outcome { IfOk result (λ engine. engine.outcome ≡ None) }
        ensures no_sums { IfOk result (λ engine. engine.sums ≡ None) }
        ensures faultless { IfOk result (λ _. game_file_fault game.now ≡ None) }
        ensures refused { (fault : FileFault) → result ≡ Err (Refused.File fault)
            → game_file_fault game.now ≡ Some fault }
    {
        let numbers = Numbers::open(alloc, game)?;
        let Ok(engine) = Engine::from_numbers(alloc, game, numbers) else {
            return Err(Refused::NoMemory);
        };
        Ok(engine)
    }

    /// A game whose numbers are there already.
    pub fn from_numbers(alloc: Global, game: &Game, numbers: Numbers) -> Result<Engine, AllocError>
        requires { numbers ≡ weighed_game game.now }
        ensures opened { IfOk result (λ engine. engine.game ≡ numbers) }
        ensures no_outcome { IfOk result (λ engine. engine.outcome ≡ None) }
        ensures no_sums { IfOk result (λ engine. engine.sums ≡ None) }
    {
        match JobTable::without_rows(alloc, numbers.form(), game.tree()) {
            Ok(jobs) => Ok(Engine {
                numbers,
                jobs,
                last_run: None,
            }),
            Err(error) => {
                drop(numbers);
                Err(error)
            }
        }
    }

    /// Plays rounds of counterfactual regret minimisation from the first one on (Zinkevich, Johanson, Bowling and
    /// Piccione 2007), and keeps the best of the average strategies that are evaluated on the way.
    ///
    /// Nothing of an earlier run is used. What earlier runs left is gone also where there is no memory for this one.
    /// Memory is taken before the first round, and then by the maker of rows alone.
    pub fn run<Rt: Threads + Wait + Sync, M: RowMaker>(
        &mut self,
        rt: &Rt,
        alloc: Global,
        settings: Settings,
        maker: &M,
    ) -> Result<(), AllocError>
        requires sync { IsSync Rt.row }
        requires can { M.can_make maker.now }
        requires limits { AreWithinLimits settings }
        ensures left { OnOk result (IsLeftOf Plain self.old.game settings self.new) }
        ensures no_memory { OnErr result (self.new.outcome ≡ None) }
        ensures no_memory_sums { OnErr result (self.new.sums ≡ None) }
        ensures game { self.new.game ≡ self.old.game }
    {
        self.run_variant(rt, alloc, Variant::Plain, settings, maker)
    }

    /// The same with rounds of this variant, of which those of CFR+ forget negative regrets and count in the average
    /// as many times as their number (Tammelin 2014).
    pub fn run_variant<Rt: Threads + Wait + Sync, M: RowMaker>(
        &mut self,
        rt: &Rt,
        alloc: Global,
        variant: Variant,
        settings: Settings,
        maker: &M,
    ) -> Result<(), AllocError>
        requires sync { IsSync Rt.row }
        requires can { M.can_make maker.now }
        requires limits { AreWithinLimitsOf variant settings }
        ensures left { OnOk result (IsLeftOf variant self.old.game settings self.new) }
        ensures no_memory { OnErr result (self.new.outcome ≡ None) }
        ensures no_memory_sums { OnErr result (self.new.sums ≡ None) }
        ensures game { self.new.game ≡ self.old.game }
    {
        leave(&mut self.last_run, None);
        let Ok(()) = note_rows(alloc, self.numbers.form(), maker, &mut self.jobs) else {
            return Err(AllocError);
        };
        let head = head_with(&self.numbers, settings);
        let source = RowSource::new(rt, alloc, self.numbers.form(), &self.jobs, maker);
        let Ok(finished) = play(&source, variant, settings, head) else {
            return Err(AllocError);
        };
        leave(&mut self.last_run, Some(finished));
        Ok(())
    }

    /// The game's sequence form.
    pub fn form(&self) -> &SeqForm
        ensures { result.now ≡ self.now.game.form }
    {
        self.numbers.form()
    }

    /// The game's numbers, with what is asked.
    pub fn head(&self, settings: Settings) -> Head
        ensures game { IsHeadOf self.now.game (head_of result) }
        ensures asked { Asks settings (head_of result) }
        ensures exact { head_of result ≡ head_with self.now.game settings }
    {
        head_with(&self.numbers, settings)
    }

    /// What the last run left: none before the first one, and where there was no memory for the last one.
    pub fn outcome(&self) -> Option<&Outcome>
        ensures { option_map (λ outcome. outcome.now) result ≡ self.now.outcome }
    {
        match &self.last_run {
            Some(finished) => Some(&finished.outcome),
            None => None,
        }
    }

    /// The sums of each player's plans over the rounds of the last run, there where its outcome is.
    pub fn sums(&self) -> Option<(&Plan, &Plan)>
        ensures { option_map (λ sums. record { one = sums.0.now; two = sums.1.now }) result ≡ self.now.sums }
    {
        match &self.last_run {
            Some(finished) => Some((&finished.sum_one, &finished.sum_two)),
            None => None,
        }
    }
}

// Leaves this in place of what an earlier run left.
fn leave(last_run: &mut Option<FinishedRun>, left: Option<FinishedRun>)
    ensures { last_run.new ≡ left }
{
    *last_run = left;
}

// Notes the rows of the jobs where the maker makes packets.
fn note_rows<M: RowMaker>(
    alloc: Global,
    form: &SeqForm,
    maker: &M,
    jobs: &mut JobTable,
) -> Result<(), AllocError>
    requires { HasLeavesOf form.now jobs.old }
    ensures serves { OnOk result (Serves (M.by_packets maker.now) form.now jobs.new) }
    ensures without { M.by_packets maker.now ≡ false → jobs.new ≡ jobs.old }
    ensures leaves { HasLeavesOf form.now jobs.new }
{
    if maker.makes_packets() {
        jobs.add_rows(alloc, form)
    } else {
        Ok(())
    }
}
