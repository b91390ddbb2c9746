//! A field of the text, and its separator.
ghost use Rattle.std.specs.Prelude.{◌<◌};
ghost use Rattle.std.specs.Fmt.{decimal};
ghost use Rattle.def_outside.specs.Cause.{HasCause};
ghost use Rattle.def_outside.specs.Sinks.{Writes};
ghost use Rattle.xg_cert.specs.Writes.{field_text};
ghost use Rattle.xg_cert.specs.declared.fields.TheConstants.{SHORT};

use itoa::Buffer;
use xg_io::{Sink, WriteFault, write_all};

/// Fields shorter than this go to the sink in one piece with their separators.
const SHORT: usize = 64;

/// Any bytes.
#[tactic(auto, using(xg_io::proofs::Pieces::prefix_first, xg_io::proofs::Pieces::then_rest), unfolding(crate::specs::Writes::field_text))]
pub(crate) fn put_field<O: Sink>(field: &[u8], separator: u8, out: &mut O) -> Result<(), WriteFault>
    ensures text { Writes (O.written out.old) (O.written out.new) (field_text field.now separator) result }
    ensures cause { HasCause (O.faults out.old) (O.faults out.new) result }
{
    let count = field.len();
    if count < SHORT {
        let mut bytes = [separator; SHORT];
        bytes[..count].copy_from_slice(field);
        return write_all(out, &bytes[..count + 1]);
    }
    write_all(out, field)?;
    write_all(out, &[separator])
}

/// A whole number.
pub(crate) fn put_whole<O: Sink>(n: u64, separator: u8, out: &mut O) -> Result<(), WriteFault>
    ensures text { Writes (O.written out.old) (O.written out.new) (field_text (decimal n) separator) result }
    ensures cause { HasCause (O.faults out.old) (O.faults out.new) result }
{
    let mut buffer = Buffer::new();
    put_field(buffer.format(n).as_bytes(), separator, out)
}
