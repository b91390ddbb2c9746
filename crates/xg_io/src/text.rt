//! Texts, and how they go to a sink by way of a page of memory, so that many short pieces are few writes.
ghost use Rattle.std.specs.Prelude.{◌≡◌, ℕ, List, OnOk, OnErr};
ghost use Rattle.std.specs.Io.KnownBytes.{append_known};
ghost use Rattle.def_outside.specs.Cause.{HasCause};
ghost use Rattle.def_outside.specs.Sinks.{AppendsPrefix};

use crate::named_page::write_by;
use crate::page::Page;
use crate::{Sink, WriteFault};
use std::marker::Brand;

/// What can be written into any sink, piece by piece.
pub trait Writable {
    /// All its bytes.
    ghost bytes: { Self → List ℕ };

    /// What holds of a text that can be written.
    ghost can_write: { Self → Type 0 } = { λ _. Unit {0} };

    /// Writes all the bytes. After an error a front of them was written.
    fn write<O: Sink>(&self, out: &mut O) -> Result<(), WriteFault>
        requires { can_write self.now }
        ensures appended { OnOk result (O.written out.new ≡ append_known (O.written out.old) (bytes self.now)) }
        ensures prefix { OnErr result (AppendsPrefix (O.written out.old) (O.written out.new) (bytes self.now)) }
        ensures cause { HasCause (O.faults out.old) (O.faults out.new) result };
}

/// Writes a text by way of a page: the sink is given full pages, and the rest at the end. After an error a front of the
/// text was written. Takes no memory.
pub fn write_paged<O: Sink, T: Writable>(out: &mut O, text: &T) -> Result<(), WriteFault>
    requires { T.can_write text.now }
    ensures appended { OnOk result (O.written out.new ≡ append_known (O.written out.old) (T.bytes text.now)) }
    ensures prefix { OnErr result (AppendsPrefix (O.written out.old) (O.written out.new) (T.bytes text.now)) }
    ensures cause { HasCause (O.faults out.old) (O.faults out.new) result }
{
    let page = Page::new(out);
    let page = write_by::<O, Brand, T>(page, text);
    let outcome = page.outcome;
    page.leave();
    outcome
}
