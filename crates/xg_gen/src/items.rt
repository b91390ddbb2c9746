//! Tokens as data, which one loop writes.
ghost use Rattle.std.specs.Prelude.{◌≡◌};
ghost use Rattle.def_outside.specs.Cause.{HasCause};
ghost use Rattle.def_outside.specs.Sinks.{Writes};
ghost use Rattle.def_canon.specs.Canon.{each, text_of_pieces};
ghost use Rattle.xg_gen.specs.Items.{item_pieces, mark_pieces};

use crate::tokens::{put_fraction, put_number, put_quoted, put_text};
use xg_frac::Frac;
use xg_io::{Sink, WriteFault, write_all};
use xg_tree::Kind;

/// What always has the same bytes.
#[derive(Clone, Copy)]
pub(crate) enum Mark {
    /// The first three words of a file.
    First,
    Open,
    Close,
    Comma,
    /// The letter of a kind of node, on a new line.
    Letter(Kind),
}

impl Mark {
    #[tactic(auto, unfolding(def_canon::specs::Canon::text_of_pieces, def_canon::specs::Canon::marker_pieces))]
    fn bytes(self) -> &'static [u8]
        ensures { result.now ≡ text_of_pieces (mark_pieces self) }
    {
        match self {
            Mark::First => b"EFG 2 R",
            Mark::Open => b" {",
            Mark::Close => b" }",
            Mark::Comma => b",",
            Mark::Letter(Kind::Chance) => b"\nc",
            Mark::Letter(Kind::One | Kind::Two) => b"\np",
            Mark::Letter(Kind::Leaf) => b"\nt",
        }
    }
}

/// Tokens, or none.
#[derive(Clone, Copy)]
pub(crate) enum Item<'a> {
    Mark(Mark),
    Number(u64),
    Fraction(Frac),
    Text(&'a [u8]),
    /// A text on a line of its own.
    Line(&'a [u8]),
    /// A name, if there is one.
    Name(Option<&'a [u8]>),
    /// The number of the player who moves, if one does.
    Mover(Kind),
}

/// Writes all items in order.
pub(crate) fn put_items<O: Sink>(items: &[Item<'_>], out: &mut O) -> Result<(), WriteFault>
    ensures text { Writes (O.written out.old) (O.written out.new) (text_of_pieces (each item_pieces items.now))
        result }
    ensures cause { HasCause (O.faults out.old) (O.faults out.new) result }
{
    'items: for i in 0..items.len() {
        put_item(&items[i], out)?;
    }
    Ok(())
}

#[tactic(auto, using(crate::proofs::Written::nothing), unfolding(def_canon::specs::Canon::name_pieces, def_canon::specs::Canon::player_pieces))]
pub(crate) fn put_item<O: Sink>(item: &Item<'_>, out: &mut O) -> Result<(), WriteFault>
    ensures text { Writes (O.written out.old) (O.written out.new) (text_of_pieces (item_pieces item.now)) result }
    ensures cause { HasCause (O.faults out.old) (O.faults out.new) result }
{
    match *item {
        Item::Mark(mark) => write_all(out, mark.bytes()),
        Item::Number(n) => put_number(n, out),
        Item::Fraction(fraction) => put_fraction(fraction, out),
        Item::Text(bytes) => put_text(bytes, out),
        Item::Line(bytes) => put_quoted(b"\n\"", bytes, out),
        Item::Name(Some(name)) => put_text(name, out),
        Item::Mover(Kind::One) => put_number(1, out),
        Item::Mover(Kind::Two) => put_number(2, out),
        Item::Name(None) | Item::Mover(Kind::Chance | Kind::Leaf) => Ok(()),
    }
}
