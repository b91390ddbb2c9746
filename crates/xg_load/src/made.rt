//! One-card poker, a game that isn't read from a file.
ghost use Rattle.std.specs.Prelude.{◌≡◌, ◌≤◌, IfOk};
ghost use Rattle.xg_io.specs.Calls.{sink_call};
ghost use Rattle.def_sums.specs.Limits.{least_cards, most_cards};
ghost use Rattle.def_canon.specs.Canon.{canon};
ghost use Rattle.def_canon.specs.Poker as def;
ghost use Rattle.xg_load.specs.Endings.{Tells};

use crate::accepted::AcceptedGame;
use crate::ending::Ending;
use std::alloc::{AllocError, Global};
use xg_game::{Game, Refused};
use xg_gen::{one_card_poker, write_game};
use xg_io::{Sink, Writable, WriteFault, write_paged};

/// The canonical form of a game.
#[derive(Clone, Copy)]
struct GameText<'a> {
    game: &'a Game,
}

impl Writable for GameText<'_> {
    ghost use Rattle.def_canon.specs.Canon.{canon};

    ghost bytes = { λ t. canon t.game.now };

    fn write<O: Sink>(&self, out: &mut O) -> Result<(), WriteFault> {
        write_game(self.game, out)
    }
}

/// One-card poker, which has no fault.
pub fn accepted_poker(alloc: Global, cards: u32) -> Result<AcceptedGame, AllocError>
    requires low { least_cards ≤ cards }
    requires high { cards ≤ most_cards }
    ensures { IfOk result (λ game. game ≡ def.poker cards) }
{
    let game = one_card_poker(alloc, cards)?;
    match AcceptedGame::open(alloc, game) {
        Ok(accepted) => Ok(accepted),
        Err(Refused::NoMemory) => Err(AllocError),
        Err(Refused::File(_)) => unreachable!(),
    }
}

/// Writes one-card poker as a file.
pub fn write_poker<O: Sink>(alloc: Global, cards: u32, out: &mut O) -> Ending
    requires low { least_cards ≤ cards }
    requires high { cards ≤ most_cards }
    ensures { Tells (canon (def.poker cards)) (sink_call O.Sink out.old out.new) result }
{
    match one_card_poker(alloc, cards) {
        Ok(game) => {
            let written = write_paged(out, &GameText { game: &game });
            drop(game);
            Ending::of_written(written)
        }
        Err(_) => Ending::NoMemory,
    }
}
