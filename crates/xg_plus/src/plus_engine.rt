//! The engine of CFR+: a game in numbers, with what its last run left.
ghost use Rattle.std.specs.Prelude.{◌≡◌, Err, IfOk, None, OnErr, OnOk, Some};
ghost use Rattle.std.specs.Option.{option_map};
ghost use Rattle.std.specs.Thread.{IsSync};
ghost use Rattle.def_file.specs.declared.FileFault.{FileFault};
ghost use Rattle.def_plus.specs.declared.Variant.TheVariants.{Plus};
ghost use Rattle.def_game_numbers.specs.Numbers.{game_file_fault};
ghost use Rattle.def_game_numbers.specs.Weighed.{weighed_game};
ghost use Rattle.xg_engine.specs.Left.{IsLeftOf};
ghost use Rattle.xg_plus.specs.Settings.{ArePlusSettings};

use std::alloc::{AllocError, Global};
use std::marker::Model;
use std::sync::Wait;
use std::thread::Threads;
use xg_cert::Outcome;
use xg_engine::{Engine, Settings, Variant};
use xg_game::{Game, Refused};
use xg_jobs::RowMaker;
use xg_seq::SeqForm;

/// A game in numbers, ready for rounds of CFR+, with what its last run left.
#[derive(Drop)]
pub struct PlusEngine {
    engine: Engine,
}

impl Model for PlusEngine {
    ghost use Rattle.xg_engine.specs.State.{EngineState};

    ghost Value = { EngineState };

    ghost view = { λ e. e.engine };
}

impl PlusEngine {
    /// The game in numbers, or its first fault: of the probabilities, payoffs and weights, and then of recall.
    pub fn open(alloc: Global, game: &Game) -> Result<PlusEngine, Refused>
        ensures opened { IfOk result (λ engine. engine.game ≡ weighed_game game.now) }
        ensures no_outcome { IfOk result (λ engine. engine.outcome ≡ None) }
        ensures no_sums { IfOk result (λ engine. engine.sums ≡ None) }
        ensures faultless { IfOk result (λ _. game_file_fault game.now ≡ None) }
        ensures refused { (fault : FileFault) → result ≡ Err (Refused.File fault)
            → game_file_fault game.now ≡ Some fault }
    {
        let engine = Engine::open(alloc, game)?;
        Ok(PlusEngine { engine })
    }

    /// Plays rounds of CFR+ from the first one on (Tammelin 2014), and keeps the best of the average strategies that
    /// are evaluated on the way. In the average the plans of round n count n times, so an end of round n is divided by
    /// 1 + 2 + .. + n.
    ///
    /// Nothing of an earlier run is used. What earlier runs left is gone also where there is no memory for this one.
    /// Memory is taken before the first round, and then by the maker of rows alone.
    pub fn run<Rt: Threads + Wait + Sync, M: RowMaker>(
        &mut self,
        rt: &Rt,
        alloc: Global,
        settings: Settings,
        maker: &M,
    ) -> Result<(), AllocError>
        requires sync { IsSync Rt.row }
        requires can { M.can_make maker.now }
        requires limits { ArePlusSettings settings }
        ensures left { OnOk result (IsLeftOf Plus self.old.game settings self.new) }
        ensures no_memory { OnErr result (self.new.outcome ≡ None) }
        ensures no_memory_sums { OnErr result (self.new.sums ≡ None) }
        ensures game { self.new.game ≡ self.old.game }
    {
        self.engine
            .run_variant(rt, alloc, Variant::Plus, settings, maker)
    }

    /// The game's sequence form.
    pub fn form(&self) -> &SeqForm
        ensures { result.now ≡ self.now.game.form }
    {
        self.engine.form()
    }

    /// What the last run left: none before the first one, and where there was no memory for the last one.
    pub fn outcome(&self) -> Option<&Outcome>
        ensures { option_map (λ outcome. outcome.now) result ≡ self.now.outcome }
    {
        self.engine.outcome()
    }
}
