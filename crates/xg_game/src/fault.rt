//! Why a game isn't read.
ghost use Rattle.std.specs.Prelude.{◌≡◌};
ghost use Rattle.xg_game.specs.declared.fault.Refused.TheVariants.{File, NoMemory};

use def_file::FileFault;
use std::alloc::AllocError;
use std::fmt;

/// Why a game isn't read.
#[derive(Clone, Copy)]
pub enum Refused {
    /// The file's first fault.
    File(FileFault),
    /// Memory ran out.
    NoMemory,
}

// By hand, since a derived text of all faults of a file takes long to prove. It names the variant alone.
impl fmt::Debug for Refused {
    fn fmt<W: fmt::Write>(&self, f: &mut fmt::Formatter<W>) -> fmt::Result {
        f.write_str(match self {
            Refused::File(_) => "File",
            Refused::NoMemory => "NoMemory",
        })
    }
}

impl From<FileFault> for Refused {
    ghost from_gives = { λ fault refused. refused ≡ File fault };

    fn from(fault: FileFault) -> Refused {
        Refused::File(fault)
    }
}

impl From<AllocError> for Refused {
    ghost from_gives = { λ _ refused. refused ≡ NoMemory };

    fn from(_error: AllocError) -> Refused {
        Refused::NoMemory
    }
}
