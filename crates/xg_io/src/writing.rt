//! Writing bytes whole.
ghost use Rattle.std.specs.Prelude.{◌≡◌, OnOk, OnErr};
ghost use Rattle.std.specs.Io.KnownBytes.{append_known};
ghost use Rattle.def_outside.specs.Cause.{HasCause};
ghost use Rattle.def_outside.specs.Sinks.{AppendsPrefix, IsCutOff};

use crate::Sink;

/// A sink failed before it had all the bytes.
#[derive(Clone, Copy, Debug, PartialEq, Eq)]
pub struct WriteFault;

/// Writes all the bytes, piece by piece as the sink takes them. After an error a front of them was written, and nothing
/// more after the write that failed. Takes no memory.
pub fn write_all<O: Sink>(sink: &mut O, bytes: &[u8]) -> Result<(), WriteFault>
    ensures appended { OnOk result (O.written sink.new ≡ append_known (O.written sink.old) bytes.now) }
    ensures prefix { OnErr result (AppendsPrefix (O.written sink.old) (O.written sink.new) bytes.now) }
    ensures rest { OnErr result
        (IsCutOff (O.written sink.old) (O.written sink.new) (O.failed_length sink.new) bytes.now) }
    ensures cause { HasCause (O.faults sink.old) (O.faults sink.new) result }
{
    let mut rest = bytes;
    while !rest.is_empty() {
        match sink.write(rest) {
            Ok(n) => rest = &rest[n..],
            Err(_) => return Err(WriteFault),
        }
    }
    Ok(())
}
