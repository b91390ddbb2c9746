//! The width that is asked, as it is written.
ghost use Rattle.std.specs.Prelude.{◌/◌, ◌^◌, ◌<◌, ◌≤◌, ◌∷◌, ◌++◌};
ghost use Rattle.std.specs.Fmt.{decimal};
ghost use Rattle.def_fraction.specs.Literal.{slash};
ghost use Rattle.def_outside.specs.Cause.{HasCause};
ghost use Rattle.def_outside.specs.Sinks.{Writes};
ghost use Rattle.def_progress.specs.Decimals.{IsQuotientText};
ghost use Rattle.xg_close_lines.specs.Texts.{asked_text};

use crate::decimals::{put_decimal, put_whole};
use xg_close_numbers::{Rounded, exact_decimal};
use xg_io::{Sink, WriteFault, write_all};

/// A width that is asked, as it is written.
#[derive(Clone, Copy, PartialEq, Eq)]
pub enum AskedWidth {
    /// A decimal.
    Decimal(Rounded),
    /// A numerator and a denominator.
    Quotient(u128, u128),
}

/// How `num/den` is written: by a decimal where one of few places has its value, else as it is given.
pub fn asked_width(num: u128, den: u128) -> AskedWidth
    requires some { 1 ≤ den }
    requires small_den { den < 2 ^ 124 }
    requires small { num / den < 2 ^ 64 }
    ensures { IsQuotientText num den (asked_text result) }
{
    match exact_decimal(num, den) {
        Some(decimal) => AskedWidth::Decimal(decimal),
        None => AskedWidth::Quotient(num, den),
    }
}

pub(crate) fn put_asked<O: Sink>(asked: AskedWidth, out: &mut O) -> Result<(), WriteFault>
    ensures text { Writes (O.written out.old) (O.written out.new) (asked_text asked) result }
    ensures cause { HasCause (O.faults out.old) (O.faults out.new) result }
{
    match asked {
        AskedWidth::Decimal(decimal) => put_decimal(decimal, out),
        AskedWidth::Quotient(num, den) => put_quotient(num, den, out),
    }
}

#[tactic(auto, using(xg_io::proofs::Pieces::prefix_first, xg_io::proofs::Pieces::then_rest))]
fn put_quotient<O: Sink>(num: u128, den: u128, out: &mut O) -> Result<(), WriteFault>
    ensures text { Writes (O.written out.old) (O.written out.new) (decimal num ++ slash ∷ decimal den) result }
    ensures cause { HasCause (O.faults out.old) (O.faults out.new) result }
{
    put_whole(num, out)?;
    put_denominator(den, out)
}

#[tactic(auto, using(xg_io::proofs::Pieces::prefix_first, xg_io::proofs::Pieces::then_rest))]
fn put_denominator<O: Sink>(den: u128, out: &mut O) -> Result<(), WriteFault>
    ensures text { Writes (O.written out.old) (O.written out.new) (slash ∷ decimal den) result }
    ensures cause { HasCause (O.faults out.old) (O.faults out.new) result }
{
    write_all(out, b"/")?;
    put_whole(den, out)
}
