//! Writing numbers in plain decimal.
ghost use Rattle.std.specs.Prelude.{◌≡◌, ◌≤ℤ◌, pos, OnOk, OnErr};
ghost use Rattle.std.specs.Io.KnownBytes.{append_known};
ghost use Rattle.def_outside.specs.Cause.{HasCause};
ghost use Rattle.def_outside.specs.Sinks.{AppendsPrefix};
ghost use Rattle.def_fraction.specs.Text.{int_text, fraction_text};
ghost use Rattle.xg_frac.specs.Parts.{fraction_from};

use crate::fraction::Frac;
use crate::wide::Ratio;
use itoa::Buffer;
use xg_io::{Sink, WriteFault, write_all};

/// Writes the numerator alone where the denominator is 1, else the numerator, `/` and the denominator. After an error a
/// front of this was written.
pub fn put_frac<O: Sink>(f: Frac, out: &mut O) -> Result<(), WriteFault>
    ensures appended { OnOk result (O.written out.new ≡ append_known (O.written out.old) (fraction_text f)) }
    ensures prefix { OnErr result (AppendsPrefix (O.written out.old) (O.written out.new) (fraction_text f)) }
    ensures cause { HasCause (O.faults out.old) (O.faults out.new) result }
{
    put_parts(f.num(), f.den(), out)
}

/// The same of a ratio.
pub fn put_ratio<O: Sink>(r: Ratio, out: &mut O) -> Result<(), WriteFault>
    ensures appended { OnOk result (O.written out.new ≡ append_known (O.written out.old) (fraction_text r)) }
    ensures prefix { OnErr result (AppendsPrefix (O.written out.old) (O.written out.new) (fraction_text r)) }
    ensures cause { HasCause (O.faults out.old) (O.faults out.new) result }
{
    put_parts(r.num(), r.den(), out)
}

fn put_parts<O: Sink>(num: i128, den: i128, out: &mut O) -> Result<(), WriteFault>
    requires { pos 1 ≤ℤ den }
    ensures appended { OnOk result (O.written out.new ≡ append_known (O.written out.old)
        (fraction_text (fraction_from num den))) }
    ensures prefix { OnErr result (AppendsPrefix (O.written out.old) (O.written out.new)
        (fraction_text (fraction_from num den))) }
    ensures cause { HasCause (O.faults out.old) (O.faults out.new) result }
{
    put_int(num, out)?;
    if den != 1 {
        write_all(out, b"/")?;
        put_int(den, out)?;
    }
    Ok(())
}

/// Writes a whole number with no leading zero, and with `-` where it is negative. After an error a front of this was
/// written.
pub fn put_int<O: Sink>(n: i128, out: &mut O) -> Result<(), WriteFault>
    ensures appended { OnOk result (O.written out.new ≡ append_known (O.written out.old) (int_text n)) }
    ensures prefix { OnErr result (AppendsPrefix (O.written out.old) (O.written out.new) (int_text n)) }
    ensures cause { HasCause (O.faults out.old) (O.faults out.new) result }
{
    let mut buffer = Buffer::new();
    write_all(out, buffer.format(n).as_bytes())
}
