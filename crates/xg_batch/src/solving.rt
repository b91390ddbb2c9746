//! A file that is solved alone.
ghost use Rattle.std.specs.Prelude.{◌≤◌, IfOk, length};
ghost use Rattle.std.specs.Thread.{IsSync};
ghost use Rattle.def_file.specs.Reading.{most_bytes};
ghost use Rattle.def_batch.specs.Batch.{Kept};
ghost use Rattle.def_game_numbers.specs.Weighed.{weighed_game};
ghost use Rattle.xg_engine.specs.State.{AreWithinLimits};
ghost use Rattle.xg_batch.specs.Items.{IsItemOf, IsPlayedItem};

use crate::item::Item;
use std::alloc::{AllocError, Global};
use std::sync::Wait;
use std::thread::Threads;
use xg_engine::Settings;
use xg_jobs::PlainRows;
use xg_load::{AcceptedGame, accept};
use xg_read::Refused;

/// The item of a file of these bytes.
#[tactic(auto, using(crate::proofs::SolvedItems::item_of_accepted))]
pub(crate) fn solve_bytes<Rt: Threads + Wait + Sync>(
    rt: &Rt,
    alloc: Global,
    bytes: &[u8],
    settings: Settings,
) -> Result<Item, AllocError>
    requires sync { IsSync Rt.row }
    requires length { length bytes.now ≤ most_bytes }
    requires limits { AreWithinLimits settings }
    ensures { IfOk result (IsItemOf settings (Kept bytes.now)) }
{
    match accept(alloc, bytes) {
        Ok(accepted) => play_all(rt, alloc, accepted, settings),
        Err(Refused::File(fault)) => Ok(Item::Refused(fault)),
        Err(Refused::NoMemory) => Err(AllocError),
    }
}

/// Plays the rounds that are asked on the game of a file.
fn play_all<Rt: Threads + Wait + Sync>(
    rt: &Rt,
    alloc: Global,
    accepted: AcceptedGame,
    settings: Settings,
) -> Result<Item, AllocError>
    requires sync { IsSync Rt.row }
    requires limits { AreWithinLimits settings }
    ensures { IfOk result (IsPlayedItem settings (weighed_game accepted)) }
{
    let mut engine = accepted.into_engine(alloc)?;
    match engine.run(rt, alloc, settings, &PlainRows) {
        Ok(()) => Ok(Item::Solved(engine)),
        Err(error) => {
            drop(engine);
            Err(error)
        }
    }
}
