//! A game that is accepted.
ghost use Rattle.std.specs.Prelude.{◌≡◌, IfOk, None};
ghost use Rattle.def_game_numbers.specs.Numbers.{tables_of};
ghost use Rattle.def_payoffs.specs.Range.{IsPayoffRange};
ghost use Rattle.def_program.specs.Text.{game_head};
ghost use Rattle.xg_outcome.specs.Outcome.{head_of};
ghost use Rattle.xg_load.specs.Accepted.{Opens};
ghost use Rattle.def_game_numbers.specs.Weighed.{weighed_game};

use std::alloc::{AllocError, Global};
use std::marker::Model;
use xg_cert::Head;
use xg_engine::{Engine, Settings, head_with};
use xg_game::{Game, Refused};
use xg_numbers::Numbers;
use xg_scale::{PayoffRange, payoff_range};

/// A game that is accepted: as its file has it, and in numbers.
#[derive(Drop)]
pub struct AcceptedGame {
    game: Game,
    numbers: Numbers,
}

impl Model for AcceptedGame {
    ghost use Rattle.std.specs.Prelude.{◌≡◌, None};
    ghost use Rattle.std.specs.Coded.{codes};
    ghost use Rattle.def_tree.specs.Code.{forest_code};
    ghost use Rattle.def_file.specs.Content.{GameFile};
    ghost use Rattle.def_game_numbers.specs.Numbers.{game_file_fault};
    ghost use Rattle.def_game_numbers.specs.Weighed.{weighed_game};

    ghost Value = { GameFile };

    ghost coded = { Prim.hlevel (codes, forest_code) };

    ghost view = { λ a. a.game };

    ghost invariant = { λ a. (a.numbers ≡ weighed_game a.game) × (game_file_fault a.game ≡ None) };
}

impl AcceptedGame {
    /// The game, or the first fault of its numbers and its sets.
    pub fn open(alloc: Global, game: Game) -> Result<AcceptedGame, Refused>
        ensures { Opens game result }
    {
        match Numbers::open(alloc, &game) {
            Ok(numbers) => Ok(AcceptedGame { game, numbers }),
            Err(fault) => {
                drop(game);
                Err(fault)
            }
        }
    }

    /// An engine for the game.
    pub fn into_engine(self, alloc: Global) -> Result<Engine, AllocError>
        ensures opened { IfOk result (λ engine. engine.game ≡ weighed_game self) }
        ensures no_outcome { IfOk result (λ engine. engine.outcome ≡ None) }
    {
        let AcceptedGame { game, numbers } = self;
        let engine = Engine::from_numbers(alloc, &game, numbers);
        drop(game);
        engine
    }

    /// The game in numbers, which are all that is kept of it.
    pub fn into_numbers(self) -> Numbers
        ensures { result ≡ weighed_game self }
    {
        let AcceptedGame { game, numbers } = self;
        drop(game);
        numbers
    }

    /// The game, as its file has it.
    pub fn game(&self) -> &Game
        ensures { result.now ≡ self.now }
    {
        &self.game
    }

    /// The game in numbers.
    pub fn numbers(&self) -> &Numbers
        ensures { result.now ≡ weighed_game self.now }
    {
        &self.numbers
    }

    /// The game's numbers, with what is asked.
    pub fn head(&self, settings: Settings) -> Head
        ensures { head_of result ≡ game_head self.now settings }
    {
        head_with(&self.numbers, settings)
    }

    /// The least and the greatest of what a leaf pays player one, by a walk over the game's nodes.
    pub fn payoff_range(&self, alloc: Global) -> Result<PayoffRange, AllocError>
        ensures { IfOk result (λ range. IsPayoffRange (tables_of self.now) self.now.tree range.least range.greatest) }
    {
        self.game.numbers_are_in_lowest_terms();
        match payoff_range(alloc, &self.game) {
            Ok(range) => Ok(range),
            Err(Refused::NoMemory) => Err(AllocError),
            Err(Refused::File(_)) => unreachable!(),
        }
    }
}
