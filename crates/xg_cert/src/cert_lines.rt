//! Further lines of the text that have a field for each number.
ghost use Rattle.std.specs.Prelude.{[], ◌∷◌};
ghost use Rattle.def_fraction.specs.Text.{fraction_text};
ghost use Rattle.def_outside.specs.Cause.{HasCause};
ghost use Rattle.def_cert_text.specs.Fields.{space, feed, fixed_word, number, field, separator, items_text};
ghost use Rattle.def_cert_text.specs.Formats.{text_of};
ghost use Rattle.def_cert_text.specs.CertText.{last_text, line_of_round, value_line};
ghost use Rattle.xg_cert.specs.ReadCert.{set_reply_of};
ghost use Rattle.xg_cert.specs.Writable.{opening_line};
ghost use Rattle.def_outside.specs.Sinks.{Writes};

use crate::items::{FEED, Item, SPACE, put_items};
use crate::read_lines::ValueLine;
use def_reply::TraceLine;
use xg_frac::Ratio;
use xg_io::{Sink, WriteFault, write_all};

/// What the first line says of the lines below.
#[derive(Clone, Copy)]
pub(crate) enum FirstLine {
    /// They are a certificate of version 2.
    Certificate,
    /// They are the text of a run of CFR+.
    Plus,
}

#[tactic(auto, unfolding(crate::specs::Writable::opening_line))]
pub(crate) fn put_first_line<O: Sink>(first: FirstLine, out: &mut O) -> Result<(), WriteFault>
    ensures text { Writes (O.written out.old) (O.written out.new) (opening_line first) result }
    ensures cause { HasCause (O.faults out.old) (O.faults out.new) result }
{
    match first {
        FirstLine::Certificate => write_all(out, b"XGCERT 2\n"),
        FirstLine::Plus => write_all(out, b"XGPLUS 1\n"),
    }
}

pub(crate) fn put_last_line<O: Sink>(out: &mut O) -> Result<(), WriteFault>
    ensures text { Writes (O.written out.old) (O.written out.new) last_text result }
    ensures cause { HasCause (O.faults out.old) (O.faults out.new) result }
{
    write_all(out, b"end\n")
}

pub(crate) fn put_trace_line<O: Sink>(row: &TraceLine, out: &mut O) -> Result<(), WriteFault>
    ensures text { Writes (O.written out.old) (O.written out.new) (text_of (line_of_round 1) row.now) result }
    ensures cause { HasCause (O.faults out.old) (O.faults out.new) result }
{
    let items = [
        Item::Word(b"trace"),
        Item::Whole(row.round as u64, SPACE),
        Item::Whole(row.low_round as u64, SPACE),
        Item::Signed(row.low, SPACE),
        Item::Whole(row.high_round as u64, SPACE),
        Item::Signed(row.high, FEED),
    ];
    put_items(&items, out)
}

pub(crate) fn put_value_line<O: Sink>(
    set: u32,
    line: ValueLine,
    out: &mut O,
) -> Result<(), WriteFault>
    ensures text { Writes (O.written out.old) (O.written out.new)
        (text_of (value_line set) (set_reply_of line)) result }
    ensures cause { HasCause (O.faults out.old) (O.faults out.new) result }
{
    let items = [
        Item::Word(b"value"),
        Item::Whole(set as u64, SPACE),
        Item::Signed(line.value, SPACE),
        Item::Whole(line.choice as u64, FEED),
    ];
    put_items(&items, out)
}

/// Writes a line of a word and both ends of a bracket. After an error a front of it was written.
pub fn put_ends_line<O: Sink>(
    word: &[u8],
    low: Ratio,
    high: Ratio,
    out: &mut O,
) -> Result<(), WriteFault>
    ensures text { Writes (O.written out.old) (O.written out.new)
        (items_text (field fixed_word word.now ∷ separator space ∷ field number (fraction_text low)
        ∷ separator space ∷ field number (fraction_text high) ∷ separator feed ∷ [])) result }
    ensures cause { HasCause (O.faults out.old) (O.faults out.new) result }
{
    let items = [
        Item::Word(word),
        Item::Fraction(low, SPACE),
        Item::Fraction(high, FEED),
    ];
    put_items(&items, out)
}
