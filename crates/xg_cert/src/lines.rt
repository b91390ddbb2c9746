//! Lines of the text that have a field for each number.
ghost use Rattle.std.specs.Prelude.{◌≡◌, OnOk, OnErr};
ghost use Rattle.std.specs.Io.KnownBytes.{append_known};
ghost use Rattle.def_outside.specs.Cause.{HasCause};
ghost use Rattle.def_outside.specs.Sinks.{AppendsPrefix, Writes};
ghost use Rattle.def_cert_text.specs.CertText.{head_text};
ghost use Rattle.xg_outcome.specs.Outcome.{head_of};
ghost use Rattle.xg_cert.specs.Writes.{counts_text};

use crate::items::{FEED, Item, SPACE, put_items};
use xg_frac::{Frac, Ratio, ratio};
use xg_io::{Sink, WriteFault};
use xg_outcome::Head;

/// Writes the lines 2 to 6 of a text of version 1, which are the game's. After an error a front of them was written.
/// Takes no memory.
pub fn write_head<O: Sink>(head: &Head, out: &mut O) -> Result<(), WriteFault>
    ensures appended { OnOk result (O.written out.new ≡ append_known (O.written out.old)
        (head_text (head_of head.now))) }
    ensures prefix { OnErr result (AppendsPrefix (O.written out.old) (O.written out.new)
        (head_text (head_of head.now))) }
    ensures cause { HasCause (O.faults out.old) (O.faults out.new) result }
{
    put_head(head, out)
}

/// The lines of the game's numbers in version 1, which has the sum behind the unit, and only where it isn't 0.
fn put_head<O: Sink>(head: &Head, out: &mut O) -> Result<(), WriteFault>
    ensures text { Writes (O.written out.old) (O.written out.new) (head_text (head_of head.now)) result }
    ensures cause { HasCause (O.faults out.old) (O.faults out.new) result }
{
    let (unit, mass) = (Item::Word(b"unit"), Item::Word(b"mass"));
    let mass_line = Item::Whole(head.mass, FEED);
    put_counts(head, out)?;
    if head.sum.is_zero() {
        let unit_line = Item::Whole(head.unit, FEED);
        return put_items(&[unit, unit_line, mass, mass_line], out);
    }
    let unit_before = Item::Whole(head.unit, SPACE);
    let sum_line = Item::Fraction(wide(head.sum), FEED);
    let sum = Item::Word(b"sum");
    put_items(&[unit, unit_before, sum, sum_line, mass, mass_line], out)
}

/// The lines of the counts.
pub(crate) fn put_counts<O: Sink>(head: &Head, out: &mut O) -> Result<(), WriteFault>
    ensures text { Writes (O.written out.old) (O.written out.new) (counts_text (head_of head.now)) result }
    ensures cause { HasCause (O.faults out.old) (O.faults out.new) result }
{
    let items = [
        Item::Word(b"nodes"),
        Item::Whole(head.nodes as u64, SPACE),
        Item::Word(b"leaves"),
        Item::Whole(head.leaves as u64, FEED),
        Item::Word(b"sets"),
        Item::Whole(head.sets.0 as u64, SPACE),
        Item::Whole(head.sets.1 as u64, FEED),
        Item::Word(b"sequences"),
        Item::Whole(head.sequences.0 as u64, SPACE),
        Item::Whole(head.sequences.1 as u64, FEED),
    ];
    put_items(&items, out)
}

/// The same fraction, as one whose parts may be larger.
pub(crate) fn wide(f: Frac) -> Ratio
    ensures { result ≡ f }
{
    ratio(f.num(), f.den())
}
