//! How a run of a program ends.
ghost use Rattle.std.specs.Prelude.{◌≡◌, ◌≢◌, IfOk, OnErr, string_bytes};
ghost use Rattle.def_outside.specs.Calls.{Says};
ghost use Rattle.xg_io.specs.Calls.{sink_call};
ghost use Rattle.def_program.specs.TextLines.{fault_line};
ghost use Rattle.xg_load.specs.Endings.{IsEndingOf, IsLineIfRoom, IsLineOf, IsUnloaded, line_at_end, status_of};

use crate::fault_lines::fault_line;
use crate::loading::LoadFault;
use std::alloc::{AllocError, Global};
use xg_io::{Sink, WriteFault, write_all};
use xg_read::FileFault;

/// How a run ends whose words were taken.
#[derive(Drop)]
pub enum Ending {
    /// The text was written.
    Done,
    /// A file has a fault, which the line says.
    Refused { line: String },
    /// A file can't be read.
    ReadFault,
    /// The text can't be written.
    WriteFault,
    /// Memory ran out.
    NoMemory,
}

impl Ending {
    /// The end of a run whose game isn't loaded.
    pub fn of_unloaded(alloc: Global, fault: LoadFault) -> Ending
        ensures { IsUnloaded fault result }
    {
        match fault {
            LoadFault::Refused(fault) => Ending::of_fault(alloc, fault),
            LoadFault::ReadFault => Ending::ReadFault,
            LoadFault::NoMemory => Ending::NoMemory,
        }
    }

    /// The end of a run whose text was written, or cut off.
    pub fn of_written(written: Result<(), WriteFault>) -> Ending
        ensures { IsEndingOf written result }
    {
        match written {
            Ok(()) => Ending::Done,
            Err(_) => Ending::WriteFault,
        }
    }

    /// The end of a run on a file that has this first fault.
    pub fn of_fault(alloc: Global, fault: FileFault) -> Ending
        ensures { IsLineIfRoom (fault_line fault) result }
    {
        Ending::of_line(fault_line(alloc, fault))
    }

    /// The end of a run with the line of a fault, if there was memory for it.
    pub fn of_line(line: Result<String, AllocError>) -> Ending
        ensures said { IfOk line (λ it. IsLineOf (string_bytes it) result) }
        ensures no_memory { OnErr line (result ≡ Ending.NoMemory) }
    {
        match line {
            Ok(line) => Ending::Refused { line },
            Err(_) => Ending::NoMemory,
        }
    }

    /// Says the line, if there is one, and answers the exit status. Whether `err` fails changes no status.
    #[tactic(auto, using(crate::proofs::WrittenLineIsSaid::says_of))]
    pub fn finish<E: Sink>(&self, err: &mut E) -> u8
        ensures status { result ≡ status_of self.now }
        ensures silent { status_of self.now ≡ 0 → err.new ≡ err.old }
        ensures said { status_of self.now ≢ 0 → Says (sink_call E.Sink err.old err.new) (line_at_end self.now) }
    {
        let status = self.status();
        if status != 0 {
            let _ = write_all(err, self.line());
        }
        status
    }

    /// The exit status.
    pub fn status(&self) -> u8
        ensures { result ≡ status_of self.now }
    {
        match self {
            Ending::Done => 0,
            Ending::Refused { .. } => 1,
            Ending::ReadFault => 3,
            Ending::WriteFault => 4,
            Ending::NoMemory => 5,
        }
    }

    /// The line that says why there is no text.
    fn line(&self) -> &[u8]
        ensures { result.now ≡ line_at_end self.now }
    {
        match self {
            Ending::Done => b"",
            Ending::Refused { line } => line.as_bytes(),
            Ending::ReadFault => b"read fault\n",
            Ending::WriteFault => b"write fault\n",
            Ending::NoMemory => b"want of memory\n",
        }
    }
}
