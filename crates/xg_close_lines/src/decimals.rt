//! Decimals, as they are written.
ghost use Rattle.std.specs.Prelude.{◌≡◌, ◌≤◌, ◌+◌, ◌/◌, ◌%◌, ◌^◌, [], ◌∷◌};
ghost use Rattle.std.specs.Fmt.{decimal};
ghost use Rattle.def_outside.specs.Cause.{HasCause};
ghost use Rattle.def_outside.specs.Sinks.{Writes};
ghost use Rattle.def_progress.specs.Decimals.{behind_point, decimal_text, last_digits, most_places};
ghost use Rattle.xg_close_lines.specs.Texts.{decimal_of};

use itoa::Buffer;
use xg_close_numbers::Rounded;
use xg_io::{Sink, WriteFault, write_all};

/// A whole number.
pub(crate) fn put_whole<O: Sink>(n: u128, out: &mut O) -> Result<(), WriteFault>
    ensures text { Writes (O.written out.old) (O.written out.new) (decimal n) result }
    ensures cause { HasCause (O.faults out.old) (O.faults out.new) result }
{
    let mut buffer = Buffer::new();
    write_all(out, buffer.format(n).as_bytes())
}

/// A decimal, with a point where there is a digit behind it.
#[tactic(auto, using(xg_io::proofs::Pieces::prefix_first, xg_io::proofs::Pieces::then_rest))]
pub(crate) fn put_decimal<O: Sink>(rounded: Rounded, out: &mut O) -> Result<(), WriteFault>
    ensures text { Writes (O.written out.old) (O.written out.new) (decimal_text (decimal_of rounded)) result }
    ensures cause { HasCause (O.faults out.old) (O.faults out.new) result }
{
    put_whole(rounded.number / power_of_ten(rounded.places), out)?;
    put_behind_point(rounded.places, rounded.number, out)
}

fn put_behind_point<O: Sink>(places: u32, number: u128, out: &mut O) -> Result<(), WriteFault>
    requires { places ≤ most_places }
    ensures text { Writes (O.written out.old) (O.written out.new) (behind_point places number) result }
    ensures cause { HasCause (O.faults out.old) (O.faults out.new) result }
{
    if places == 0 {
        return Ok(());
    }
    write_all(out, b".")?;
    put_last_digits(places, number, out)
}

/// So many last digits of a number.
fn put_last_digits<O: Sink>(places: u32, number: u128, out: &mut O) -> Result<(), WriteFault>
    requires { places ≤ most_places }
    ensures text { Writes (O.written out.old) (O.written out.new) (last_digits places number) result }
    ensures cause { HasCause (O.faults out.old) (O.faults out.new) result }
{
    let mut left = places;
    while left > 0 {
        left -= 1;
        put_digit(left, number, out)?;
    }
    Ok(())
}

/// The digit with so many digits behind it.
fn put_digit<O: Sink>(behind: u32, number: u128, out: &mut O) -> Result<(), WriteFault>
    requires { behind ≤ most_places }
    ensures text { Writes (O.written out.old) (O.written out.new) ((48 + number / 10 ^ behind % 10) ∷ []) result }
    ensures cause { HasCause (O.faults out.old) (O.faults out.new) result }
{
    let digit = number / power_of_ten(behind) % 10;
    write_all(out, &[b'0' + digit as u8])
}

fn power_of_ten(exponent: u32) -> u128
    requires { exponent ≤ most_places }
    ensures value { result ≡ 10 ^ exponent }
    ensures positive { 1 ≤ result }
{
    10u128.pow(exponent)
}
