//! Reading a file whole.
ghost use Rattle.std.specs.Prelude.{◌≡◌, ◌+◌, ◌<◌, ◌≤◌, ◌↔◌, length, IsTrue, IfOk, IfSome, IsErrOf, vec_len};
ghost use Rattle.def_outside.specs.Calls.{past_count};
ghost use Rattle.def_outside.specs.Cause.{next_count};
ghost use Rattle.xg_io.specs.Cause.{ReadAllHasCause};

use crate::{Files, OpenFault};
use std::alloc::{AllocError, Global};
use thiserror::Error;

/// How many bytes are asked for at once. A larger piece takes a small file longer to make than to read.
const PIECE: usize = 16_384;

/// Why a file wasn't read whole.
#[derive(Clone, Copy, Debug, Error)]
pub enum ReadAllFault {
    /// The file can't be opened or read.
    #[error("read fault")]
    ReadFault,
    /// The file has more bytes than the limit.
    #[error("the file is too long")]
    TooLong,
    /// Memory ran out.
    #[error("want of memory")]
    NoMemory,
}

/// The bytes of a file, at most `limit` of them. A file that is longer is read up to the first byte too many.
pub fn read_all<F: Files>(
    alloc: Global,
    files: &mut F,
    name: &str,
    limit: usize,
) -> Result<Vec<u8>, ReadAllFault>
    requires name { IsTrue (F.may_open files.old name.now) }
    requires limit { limit < past_count }
    ensures whole { IfOk result (λ v. IfSome (F.told files.old name.now) (λ bytes. v.items ≡ bytes)) }
    ensures within { IfOk result (λ v. vec_len v ≤ limit) }
    ensures counted { IfOk result (λ v. vec_len v ≡ F.taken files.new) }
    ensures too_long { IsErrOf result ReadAllFault.TooLong ↔ (F.taken files.new ≡ limit + 1) }
    ensures too_long_told { IsErrOf result ReadAllFault.TooLong
        → IfSome (F.told files.old name.now) (λ bytes. limit < length bytes) }
    ensures same_told { F.told files.new ≡ F.told files.old }
    ensures same_names { F.may_open files.new ≡ F.may_open files.old }
    ensures one_open { F.opens files.new ≡ next_count (F.opens files.old) }
    ensures cause { ReadAllHasCause (F.faults files.old) (F.faults files.new) result }
{
    match files.open(alloc, name) {
        Ok(()) => {}
        Err(OpenFault::Failed) => return Err(ReadAllFault::ReadFault),
        Err(OpenFault::NoMemory) => return Err(ReadAllFault::NoMemory),
    }
    let Ok(mut piece) = new_piece(alloc) else {
        return Err(ReadAllFault::NoMemory);
    };
    read_rest(alloc, files, &mut piece, limit)
}

/// Room for what is asked for at once.
fn new_piece(alloc: Global) -> Result<Vec<u8>, AllocError>
    ensures { IfOk result (λ v. 0 < vec_len v) }
{
    vec![in alloc; 0u8; PIECE]
}

/// The bytes of the file that was opened just now, by way of `piece`.
fn read_rest<F: Files>(
    alloc: Global,
    files: &mut F,
    piece: &mut [u8],
    limit: usize,
) -> Result<Vec<u8>, ReadAllFault>
    requires file { IsTrue (F.is_open files.old) }
    requires start { F.taken files.old ≡ 0 }
    requires room { 0 < length piece.old }
    requires limit { limit < past_count }
    ensures whole { IfOk result (λ v. IfSome (F.left files.old) (λ bytes. v.items ≡ bytes)) }
    ensures within { IfOk result (λ v. vec_len v ≤ limit) }
    ensures counted { IfOk result (λ v. vec_len v ≡ F.taken files.new) }
    ensures too_long { IsErrOf result ReadAllFault.TooLong ↔ (F.taken files.new ≡ limit + 1) }
    ensures too_long_told { IsErrOf result ReadAllFault.TooLong
        → IfSome (F.left files.old) (λ bytes. limit < length bytes) }
    ensures same_told { F.told files.new ≡ F.told files.old }
    ensures same_names { F.may_open files.new ≡ F.may_open files.old }
    ensures same_opens { F.opens files.new ≡ F.opens files.old }
    ensures cause { ReadAllHasCause (F.faults files.old) (F.faults files.new) result }
{
    let mut bytes = Vec::new(alloc);
    loop {
        let room = limit - bytes.len();
        let want = piece.len().min(room + 1);
        let Ok(n) = files.read(&mut piece[..want]) else {
            return Err(ReadAllFault::ReadFault);
        };
        if n == 0 {
            return Ok(bytes);
        }
        if n > room {
            return Err(ReadAllFault::TooLong);
        }
        let Ok(()) = bytes.extend_from_slice(&piece[..n]) else {
            return Err(ReadAllFault::NoMemory);
        };
    }
}
