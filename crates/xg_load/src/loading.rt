//! Loading a game from its file.
ghost use Rattle.std.specs.Prelude.{◌≡◌, ◌≢◌, ◌<◌, ◌≤◌, Err, length, IsTrue, IsErrOf};
ghost use Rattle.def_outside.specs.Cause.{next_count};
ghost use Rattle.def_file.specs.Reading.{most_bytes};
ghost use Rattle.def_check.specs.Accepting.{read_as_accepted};
ghost use Rattle.xg_game.specs.Refusals.{Answers};
ghost use Rattle.xg_load.specs.Loads.{LoadHasCause, Loads};

use crate::accepted::AcceptedGame;
use std::alloc::Global;
use xg_io::{Files, ReadAllFault, read_all};
use xg_read::{FileFault, MOST_BYTES, Refused, read_game};

/// Why a game isn't loaded.
#[derive(Clone, Copy)]
pub enum LoadFault {
    /// The file can't be opened or read.
    ReadFault,
    /// The file's first fault.
    Refused(FileFault),
    /// Memory ran out.
    NoMemory,
}

/// The accepted game of the file of a name.
#[tactic(auto, unfolding(def_check::specs::Accepting::read_as_game))]
pub fn load<F: Files>(alloc: Global, files: &mut F, name: &str) -> Result<AcceptedGame, LoadFault>
    requires { IsTrue (F.may_open files.old name.now) }
    ensures exact { Loads (F.told files.old name.now) result }
    ensures too_long { IsErrOf result (LoadFault.Refused FileFault.TooLong) → most_bytes < F.taken files.new }
    ensures same_told { F.told files.new ≡ F.told files.old }
    ensures same_names { F.may_open files.new ≡ F.may_open files.old }
    ensures one_open { F.opens files.new ≡ next_count (F.opens files.old) }
    ensures cause { LoadHasCause (F.faults files.old) (F.faults files.new) result }
{
    match read_all(alloc, files, name, MOST_BYTES) {
        Ok(bytes) => match accept(alloc, &bytes) {
            Ok(accepted) => Ok(accepted),
            Err(Refused::File(fault)) => Err(LoadFault::Refused(fault)),
            Err(Refused::NoMemory) => Err(LoadFault::NoMemory),
        },
        Err(ReadAllFault::ReadFault) => Err(LoadFault::ReadFault),
        Err(ReadAllFault::TooLong) => Err(LoadFault::Refused(FileFault::TooLong)),
        Err(ReadAllFault::NoMemory) => Err(LoadFault::NoMemory),
    }
}

/// The accepted game of these bytes of a file, or their first fault.
#[tactic(auto, using(crate::proofs::Loaded::opened_any_length, crate::proofs::Loaded::opened_is_accepted, crate::proofs::Loaded::unread_is_refused))]
pub fn accept(alloc: Global, bytes: &[u8]) -> Result<AcceptedGame, Refused>
    requires { length bytes.now ≤ most_bytes }
    ensures exact { Answers result (read_as_accepted bytes.now) }
    ensures any_length { result ≢ Err (Refused.File FileFault.TooLong) }
{
    let game = read_game(alloc, bytes)?;
    AcceptedGame::open(alloc, game)
}
