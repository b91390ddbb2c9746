//! Lines as data: the fields of a text in order, each with its separator, which one loop writes.
ghost use Rattle.def_outside.specs.Cause.{HasCause};
ghost use Rattle.def_outside.specs.Sinks.{Writes};
ghost use Rattle.def_cert_text.specs.Fields.{items_text};
ghost use Rattle.xg_cert.specs.Items.{field_bytes, items_of, separator_of};
ghost use Rattle.xg_cert.specs.Writes.{field_text};

use crate::fields::{put_field, put_whole};
use itoa::Buffer;
use xg_frac::{Ratio, put_ratio};
use xg_io::{Sink, WriteFault, write_all};

/// What stands behind a field within a line.
pub(crate) const SPACE: u8 = b' ';

/// What stands behind the last field of a line.
pub(crate) const FEED: u8 = b'\n';

/// A field, and the byte behind it, `SPACE` or `FEED`.
#[derive(Clone, Copy)]
pub(crate) enum Item<'a> {
    /// A word and a space.
    Word(&'a [u8]),
    /// A whole number.
    Whole(u64, u8),
    /// A whole number with a sign where it is negative.
    Signed(i128, u8),
    /// A fraction.
    Fraction(Ratio, u8),
}

/// Writes all items in order.
pub(crate) fn put_items<O: Sink>(items: &[Item<'_>], out: &mut O) -> Result<(), WriteFault>
    ensures text { Writes (O.written out.old) (O.written out.new) (items_text (items_of items.now)) result }
    ensures cause { HasCause (O.faults out.old) (O.faults out.new) result }
{
    'items: for i in 0..items.len() {
        put_item(&items[i], out)?;
    }
    Ok(())
}

#[tactic(auto, using(xg_io::proofs::Pieces::prefix_first, xg_io::proofs::Pieces::then_rest), unfolding(crate::specs::Writes::field_text))]
fn put_item<O: Sink>(item: &Item<'_>, out: &mut O) -> Result<(), WriteFault>
    ensures text { Writes (O.written out.old) (O.written out.new)
        (field_text (field_bytes item.now) (separator_of item.now)) result }
    ensures cause { HasCause (O.faults out.old) (O.faults out.new) result }
{
    match *item {
        Item::Word(word) => put_field(word, SPACE, out),
        Item::Whole(n, separator) => put_whole(n, separator, out),
        Item::Signed(n, separator) => {
            let mut buffer = Buffer::new();
            put_field(buffer.format(n).as_bytes(), separator, out)
        }
        Item::Fraction(fraction, separator) => {
            put_ratio(fraction, out)?;
            write_all(out, &[separator])
        }
    }
}
