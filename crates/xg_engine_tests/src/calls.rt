//! What the tests call, each in one place.
ghost use Rattle.std.specs.Thread.{IsSync};
ghost use Rattle.xg_engine.specs.State.{AreWithinLimits, AreWithinLimitsOf};
ghost use Rattle.xg_plus.specs.Settings.{ArePlusSettings};

use std::alloc::{AllocError, Global};
use std::marker::Sync;
use std::process::Abort;
use std::sync::Wait;
use std::test::Fail;
use std::thread::Threads;
use xg_engine::{Engine, Settings, Variant};
use xg_game::Game;
use xg_jobs::RowMaker;
use xg_plus::PlusEngine;
use xg_read::{MOST_BYTES, read_game};

pub(crate) fn read(rt: &impl Abort, alloc: Global, file: &str) -> Result<Game, Fail> {
    assert!(rt; file.len() <= MOST_BYTES);
    Ok(read_game(alloc, file.as_bytes())?)
}

pub(crate) fn open(alloc: Global, game: &Game) -> Result<Engine, Fail> {
    Ok(Engine::open(alloc, game)?)
}

pub(crate) fn run<R: Threads + Wait + Sync, M: RowMaker>(
    rt: &R,
    alloc: Global,
    engine: &mut Engine,
    settings: Settings,
    maker: &M,
) -> Result<(), AllocError>
    requires sync { IsSync R.row }
    requires can { M.can_make maker.now }
    requires limits { AreWithinLimits settings }
{
    engine.run(rt, alloc, settings, maker)
}

pub(crate) fn run_variant<R: Threads + Wait + Sync, M: RowMaker>(
    rt: &R,
    alloc: Global,
    engine: &mut Engine,
    variant: Variant,
    settings: Settings,
    maker: &M,
) -> Result<(), AllocError>
    requires sync { IsSync R.row }
    requires can { M.can_make maker.now }
    requires limits { AreWithinLimitsOf variant settings }
{
    engine.run_variant(rt, alloc, variant, settings, maker)
}

pub(crate) fn open_plus(alloc: Global, game: &Game) -> Result<PlusEngine, Fail> {
    Ok(PlusEngine::open(alloc, game)?)
}

pub(crate) fn run_plus<R: Threads + Wait + Sync, M: RowMaker>(
    rt: &R,
    alloc: Global,
    engine: &mut PlusEngine,
    settings: Settings,
    maker: &M,
) -> Result<(), AllocError>
    requires sync { IsSync R.row }
    requires can { M.can_make maker.now }
    requires limits { ArePlusSettings settings }
{
    engine.run(rt, alloc, settings, maker)
}
