//! Tokens of the canonical form, each behind its white space.
ghost use Rattle.std.specs.Prelude.{[], ◌∷◌, ◌++◌};
ghost use Rattle.def_outside.specs.Cause.{HasCause};
ghost use Rattle.def_file_tokens.specs.Texts.{escaped};
ghost use Rattle.def_canon.specs.Canon.{fraction, text_piece, text_of_pieces, whole_piece};
ghost use Rattle.def_outside.specs.Sinks.{Writes};

use itoa::Buffer;
use memchr::memchr;
use xg_frac::{Frac, put_frac};
use xg_io::{Sink, WriteFault, write_all};

/// A whole number. Most are the number of a player or of the null outcome, which take one write.
pub(crate) fn put_number<O: Sink>(n: u64, out: &mut O) -> Result<(), WriteFault>
    ensures text { Writes (O.written out.old) (O.written out.new) (text_of_pieces (whole_piece n ∷ [])) result }
    ensures cause { HasCause (O.faults out.old) (O.faults out.new) result }
{
    match n {
        0 => write_all(out, b" 0"),
        1 => write_all(out, b" 1"),
        2 => write_all(out, b" 2"),
        _ => put_digits(n, out),
    }
}

/// A whole number, digit by digit.
fn put_digits<O: Sink>(n: u64, out: &mut O) -> Result<(), WriteFault>
    ensures text { Writes (O.written out.old) (O.written out.new) (text_of_pieces (whole_piece n ∷ [])) result }
    ensures cause { HasCause (O.faults out.old) (O.faults out.new) result }
{
    let mut buffer = Buffer::new();
    write_all(out, b" ")?;
    write_all(out, buffer.format(n).as_bytes())
}

pub(crate) fn put_fraction<O: Sink>(f: Frac, out: &mut O) -> Result<(), WriteFault>
    ensures text { Writes (O.written out.old) (O.written out.new) (text_of_pieces (fraction f ∷ [])) result }
    ensures cause { HasCause (O.faults out.old) (O.faults out.new) result }
{
    write_all(out, b" ")?;
    put_frac(f, out)
}

/// A text behind one space. Most nodes have no name.
pub(crate) fn put_text<O: Sink>(bytes: &[u8], out: &mut O) -> Result<(), WriteFault>
    ensures text { Writes (O.written out.old) (O.written out.new) (text_of_pieces (text_piece bytes.now ∷ [])) result }
    ensures cause { HasCause (O.faults out.old) (O.faults out.new) result }
{
    if bytes.is_empty() {
        return write_all(out, b" \"\"");
    }
    put_quoted(b" \"", bytes, out)
}

/// Bytes behind an opening quotation mark and what stands before it, and a closing one.
#[tactic(auto, using(xg_io::proofs::Pieces::prefix_first, xg_io::proofs::Pieces::then_rest))]
pub(crate) fn put_quoted<O: Sink>(
    opening: &[u8],
    bytes: &[u8],
    out: &mut O,
) -> Result<(), WriteFault>
    ensures text { Writes (O.written out.old) (O.written out.new) (opening.now ++ (escaped bytes.now ++ 34 ∷ []))
        result }
    ensures cause { HasCause (O.faults out.old) (O.faults out.new) result }
{
    write_all(out, opening)?;
    put_escaped(bytes, out)?;
    write_all(out, b"\"")
}

/// Bytes with a backslash before each quotation mark.
fn put_escaped<O: Sink>(bytes: &[u8], out: &mut O) -> Result<(), WriteFault>
    ensures text { Writes (O.written out.old) (O.written out.new) (escaped bytes.now) result }
    ensures cause { HasCause (O.faults out.old) (O.faults out.new) result }
{
    let mut rest = bytes;
    'marks: while let Some(mark) = memchr(b'"', rest) {
        put_marked(&rest[..mark], out)?;
        rest = &rest[mark + 1..];
    }
    write_all(out, rest)
}

/// Bytes without a quotation mark, and one behind its backslash.
#[tactic(auto, using(xg_io::proofs::Pieces::prefix_first, xg_io::proofs::Pieces::then_rest))]
fn put_marked<O: Sink>(bytes: &[u8], out: &mut O) -> Result<(), WriteFault>
    ensures text { Writes (O.written out.old) (O.written out.new) (bytes.now ++ (92 ∷ 34 ∷ [])) result }
    ensures cause { HasCause (O.faults out.old) (O.faults out.new) result }
{
    write_all(out, bytes)?;
    write_all(out, b"\\\"")
}
