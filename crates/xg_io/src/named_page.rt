//! A page as a sink, of which contracts know before which sink it is.
ghost use Rattle.std.specs.Prelude.{◌≡◌, ◌<◌, OnOk, OnErr};
ghost use Rattle.std.specs.Io.KnownBytes.{append_known};
ghost use Rattle.def_outside.specs.Cause.{HasCause};
ghost use Rattle.def_outside.specs.Sinks.{AppendsPrefix};
ghost use Rattle.xg_io.specs.Waiting.{IsGrown, with_waiting};

use crate::page::Page;
use crate::text::Writable;
use crate::{Failed, Sink, WriteFault};
use std::marker::{Brand, PhantomData};

/// A page's sink, for contracts alone: the reference to it, and what it had taken before.
///
/// Whoever is handed the page as some sink knows nothing of this reference. So the page's type keeps that it is the
/// same.
pub trait Lender {
    ghost use Rattle.std.specs.Prelude.{ℕ, List, Option};

    ghost reference: { ℕ };

    ghost before: { Option (List ℕ) };
}

impl Lender for Brand {
    ghost use Rattle.std.specs.Prelude.{None};

    ghost reference = { 0 };

    ghost before = { None };
}

/// A page before the sink that its lender names.
pub struct NamedPage<'a, O: Sink, L: Lender> {
    page: Page<'a, O>,
    of: PhantomData<L>,
    ghost same_reference: { page.sink.ghost_name ≡ L.reference },
    ghost grown: { IsGrown L.before (O.written page.sink.now) },
}

impl<'a, O: Sink, L: Lender> Sink for NamedPage<'a, O, L> {
    ghost written = { λ p. with_waiting (O.written p.page.sink.now) p.page.bytes p.page.start p.page.end };

    ghost faults = { λ p. O.faults p.page.sink.now };

    ghost failed_length = { λ p. p.page.failed_length };

    fn write(&mut self, piece: &[u8]) -> Result<usize, Failed> {
        self.page.put(piece)
    }
}

/// Writes the text by way of the page, and keeps there what became of it. After an error a front of the text was
/// written.
pub(crate) fn write_by<'a, O: Sink, L: Lender, T: Writable>(
    page: Page<'a, O>,
    text: &T,
) -> Page<'a, O>
    requires reference { page.sink.ghost_name ≡ L.reference }
    requires before { O.written page.sink.now ≡ L.before }
    requires empty { page.start ≡ page.end }
    requires text { T.can_write text.now }
    ensures same_reference { result.sink.ghost_name ≡ page.entry.sink.ghost_name }
    ensures appended { OnOk result.outcome (O.written result.sink.now ≡ append_known L.before (T.bytes text.now)) }
    ensures prefix { OnErr result.outcome (AppendsPrefix L.before (O.written result.sink.now) (T.bytes text.now)) }
    ensures cause { HasCause (O.faults page.entry.sink.now) (O.faults result.sink.now) result.outcome }
{
    let (mut page, filled) = fill::<O, L, T>(page, text);
    if filled.is_err() {
        page.outcome = filled;
        return page;
    }
    page.outcome = page.turn();
    page
}

// Writes the text into the page.
fn fill<'a, O: Sink, L: Lender, T: Writable>(
    page: Page<'a, O>,
    text: &T,
) -> (Page<'a, O>, Result<(), WriteFault>)
    requires reference { page.sink.ghost_name ≡ L.reference }
    requires before { O.written page.sink.now ≡ L.before }
    requires empty { page.start ≡ page.end }
    requires text { T.can_write text.now }
    ensures same_reference { result.0.sink.ghost_name ≡ page.entry.sink.ghost_name }
    ensures appended { OnOk result.1
        (with_waiting (O.written result.0.sink.now) result.0.bytes result.0.start result.0.end
        ≡ append_known L.before (T.bytes text.now)) }
    ensures prefix { OnErr result.1 (AppendsPrefix L.before
        (with_waiting (O.written result.0.sink.now) result.0.bytes result.0.start result.0.end) (T.bytes text.now)) }
    ensures grown { IsGrown L.before (O.written result.0.sink.now) }
    ensures cause { HasCause (O.faults page.entry.sink.now) (O.faults result.0.sink.now) result.1 }
{
    let mut named = NamedPage::<O, L> {
        page,
        of: PhantomData,
    };
    let written = text.write(&mut named);
    let NamedPage { page, of: _ } = named;
    (page, written)
}
