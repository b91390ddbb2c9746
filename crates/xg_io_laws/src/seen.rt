//! One open, one read and one write, as their words see them.
ghost use Rattle.std.specs.Prelude.{◌≡◌, ◌+◌, ◌<◌, IfOk, IsErr, IsTrue, length, take};
ghost use Rattle.def_outside.specs.Calls.{HasFailedOnce, HasNoFault, OpensAtMost, Wrote, WroteNothing, past_count};
ghost use Rattle.def_outside.specs.Cause.{next_count};
ghost use Rattle.xg_io.specs.Calls.{files_call, sink_call};

use std::alloc::Global;
use xg_io::{Failed, Files, Sink};

/// A file that is opened is one more that was opened, and none of its bytes is taken yet.
pub fn open_is_seen<F: Files>(alloc: Global, files: &mut F, name: &str) -> bool
    requires { IsTrue (F.may_open files.old name.now) }
    ensures told { (files_call F.Files files.old files.new).told ≡ F.told files.new }
    ensures before { (files_call F.Files files.old files.new).opens_before ≡ F.opens files.old }
    ensures one_more { (files_call F.Files files.old files.new).opens_now ≡ next_count (F.opens files.old) }
    ensures at_most { OpensAtMost (files_call F.Files files.old files.new) 1 }
    ensures none_taken { (files_call F.Files files.old files.new).taken ≡ 0 }
    ensures no_fault { IsTrue result → HasNoFault (files_call F.Files files.old files.new).faults }
{
    files.open(alloc, name).is_ok()
}

/// What is read is counted as taken of the file, no more is opened, and a read that fails is one fault.
pub fn read_is_seen<F: Files>(files: &mut F, into: &mut [u8]) -> Result<usize, Failed>
    requires file { IsTrue (F.is_open files.old) }
    requires room { 0 < length into.old }
    requires countable { F.taken files.old < past_count }
    ensures taken { IfOk result (λ n. (files_call F.Files files.old files.new).taken ≡ F.taken files.old + n) }
    ensures none_opened { OpensAtMost (files_call F.Files files.old files.new) 0 }
    ensures no_fault { IfOk result (λ n. HasNoFault (files_call F.Files files.old files.new).faults) }
    ensures failed { IsErr result → HasFailedOnce (files_call F.Files files.old files.new).faults }
{
    files.read(into)
}

/// What a sink takes of a piece was written, and a write that fails wrote nothing and is one fault of that piece.
pub fn write_is_seen<S: Sink>(sink: &mut S, piece: &[u8]) -> Result<usize, Failed>
    requires { 0 < length piece.now }
    ensures wrote { IfOk result (λ n. Wrote (sink_call S.Sink sink.old sink.new) (take n piece.now)) }
    ensures no_fault { IfOk result (λ n. HasNoFault (sink_call S.Sink sink.old sink.new).faults) }
    ensures nothing { IsErr result → WroteNothing (sink_call S.Sink sink.old sink.new) }
    ensures failed { IsErr result → HasFailedOnce (sink_call S.Sink sink.old sink.new).faults }
    ensures failed_piece { IsErr result → (sink_call S.Sink sink.old sink.new).failed_length ≡ length piece.now }
{
    sink.write(piece)
}
