//! Reading a game file and a certificate.
ghost use Rattle.std.specs.Prelude.{◌+◌, ◌≤◌, IsTrue};
ghost use Rattle.def_program.specs.CheckLines.{cert_long_line};
ghost use Rattle.xg_io.specs.Calls.{files_call};
ghost use Rattle.xg_load.specs.Endings.{IsLineIfRoom};
ghost use Rattle.xg_run.specs.BothRead.{ReadsBoth};
ghost use Rattle.def_program_opens.specs.MayOpen.{IsNotTooLong};

use crate::ending::Ending;
use std::alloc::Global;
use xg_check::MOST_CERT_BYTES;
use xg_io::{Files, ReadAllFault, read_all};
use xg_read::{FileFault, MOST_BYTES};

/// The bytes of a file and of a certificate.
#[derive(Drop)]
pub struct Both {
    pub file: Vec<u8>,
    pub certificate: Vec<u8>,
}

/// The bytes of both, or the end of a run where they aren't there. The certificate of a file that is too long isn't
/// opened.
pub fn read_both<F: Files>(
    alloc: Global,
    files: &mut F,
    file: &str,
    certificate: &str,
) -> Result<Both, Ending>
    requires file { IsTrue (F.may_open files.old file.now) }
    requires certificate { IsNotTooLong (F.told files.old file.now) → IsTrue (F.may_open files.old certificate.now) }
    ensures exact { ReadsBoth (F.told files.old file.now) (F.told files.old certificate.now)
        (files_call F.Files files.old files.new) result }
    ensures opens { F.opens files.new ≤ F.opens files.old + 2 }
{
    let file = match read_all(alloc, files, file, MOST_BYTES) {
        Ok(bytes) => bytes,
        Err(ReadAllFault::TooLong) => {
            return Err(Ending::of_fault(alloc, FileFault::TooLong));
        }
        Err(ReadAllFault::ReadFault) => return Err(Ending::ReadFault),
        Err(ReadAllFault::NoMemory) => return Err(Ending::NoMemory),
    };
    match read_all(alloc, files, certificate, MOST_CERT_BYTES) {
        Ok(certificate) => Ok(Both { file, certificate }),
        Err(ReadAllFault::TooLong) => Err(long_certificate(alloc)),
        Err(ReadAllFault::ReadFault) => Err(Ending::ReadFault),
        Err(ReadAllFault::NoMemory) => Err(Ending::NoMemory),
    }
}

fn long_certificate(alloc: Global) -> Ending
    ensures { IsLineIfRoom cert_long_line result }
{
    Ending::of_line(String::from_str(alloc, "refused 21 CertLong\n"))
}
