//! The line that says how a search stands.
ghost use Rattle.std.specs.Fmt.{decimal};
ghost use Rattle.def_outside.specs.Cause.{HasCause};
ghost use Rattle.def_outside.specs.Sinks.{Writes};
ghost use Rattle.def_fraction.specs.Text.{fraction_text};
ghost use Rattle.def_progress.specs.Decimals.{decimal_text};
ghost use Rattle.def_progress.specs.Progress.{bounds_text, named, progress_line, widths_text};
ghost use Rattle.xg_close_lines.specs.Texts.{asked_text, decimal_of, standing_of};

use crate::asked::{AskedWidth, put_asked};
use crate::decimals::{put_decimal, put_whole};
use xg_close_numbers::Rounded;
use xg_frac::{Ratio, put_ratio};
use xg_io::{Sink, Writable, WriteFault, write_all, write_paged};

/// How a search stands, as a line says it.
#[derive(Clone, Copy)]
pub struct Progress {
    /// How many rounds were played.
    pub rounds: u32,
    /// A width that isn't below HIGH less LOW.
    pub width: Rounded,
    /// The width that is asked.
    pub asked: AskedWidth,
    pub low: Ratio,
    pub high: Ratio,
}

/// Says how a search stands, in one write where the sink takes a line at once.
pub fn write_progress<E: Sink>(progress: &Progress, err: &mut E) -> Result<(), WriteFault>
    ensures text { Writes (E.written err.old) (E.written err.new) (progress_line (standing_of progress.now)) result }
    ensures cause { HasCause (E.faults err.old) (E.faults err.new) result }
{
    write_paged(err, progress)
}

impl Writable for Progress {
    ghost use Rattle.def_progress.specs.Progress.{progress_line};
    ghost use Rattle.xg_close_lines.specs.Texts.{standing_of};

    ghost bytes = { λ p. progress_line (standing_of p) };

    fn write<O: Sink>(&self, out: &mut O) -> Result<(), WriteFault> {
        put_line(self, out)
    }
}

fn put_line<O: Sink>(progress: &Progress, out: &mut O) -> Result<(), WriteFault>
    ensures text { Writes (O.written out.old) (O.written out.new) (progress_line (standing_of progress.now)) result }
    ensures cause { HasCause (O.faults out.old) (O.faults out.new) result }
{
    put_rounds(b"xg_close: ", progress.rounds, out)?;
    put_widths(progress.width, progress.asked, out)?;
    put_bounds(progress.low, progress.high, out)
}

#[tactic(auto, using(xg_io::proofs::Pieces::prefix_first, xg_io::proofs::Pieces::then_rest))]
fn put_rounds<O: Sink>(name: &[u8], rounds: u32, out: &mut O) -> Result<(), WriteFault>
    ensures text { Writes (O.written out.old) (O.written out.new) (named name.now (decimal rounds)) result }
    ensures cause { HasCause (O.faults out.old) (O.faults out.new) result }
{
    write_all(out, name)?;
    put_whole(rounds as u128, out)
}

fn put_widths<O: Sink>(width: Rounded, asked: AskedWidth, out: &mut O) -> Result<(), WriteFault>
    ensures text { Writes (O.written out.old) (O.written out.new)
        (widths_text (decimal_of width) (asked_text asked)) result }
    ensures cause { HasCause (O.faults out.old) (O.faults out.new) result }
{
    put_width(b" rounds, width ", width, out)?;
    put_asked_width(b" of ", asked, out)
}

#[tactic(auto, using(xg_io::proofs::Pieces::prefix_first, xg_io::proofs::Pieces::then_rest))]
fn put_width<O: Sink>(name: &[u8], width: Rounded, out: &mut O) -> Result<(), WriteFault>
    ensures text { Writes (O.written out.old) (O.written out.new)
        (named name.now (decimal_text (decimal_of width))) result }
    ensures cause { HasCause (O.faults out.old) (O.faults out.new) result }
{
    write_all(out, name)?;
    put_decimal(width, out)
}

#[tactic(auto, using(xg_io::proofs::Pieces::prefix_first, xg_io::proofs::Pieces::then_rest))]
fn put_asked_width<O: Sink>(name: &[u8], asked: AskedWidth, out: &mut O) -> Result<(), WriteFault>
    ensures text { Writes (O.written out.old) (O.written out.new) (named name.now (asked_text asked)) result }
    ensures cause { HasCause (O.faults out.old) (O.faults out.new) result }
{
    write_all(out, name)?;
    put_asked(asked, out)
}

fn put_bounds<O: Sink>(low: Ratio, high: Ratio, out: &mut O) -> Result<(), WriteFault>
    ensures text { Writes (O.written out.old) (O.written out.new) (bounds_text low high) result }
    ensures cause { HasCause (O.faults out.old) (O.faults out.new) result }
{
    put_bound(b", low ", low, out)?;
    put_bound(b", high ", high, out)?;
    write_all(out, b"\n")
}

#[tactic(auto, using(xg_io::proofs::Pieces::prefix_first, xg_io::proofs::Pieces::then_rest))]
fn put_bound<O: Sink>(name: &[u8], bound: Ratio, out: &mut O) -> Result<(), WriteFault>
    ensures text { Writes (O.written out.old) (O.written out.new) (named name.now (fraction_text bound)) result }
    ensures cause { HasCause (O.faults out.old) (O.faults out.new) result }
{
    write_all(out, name)?;
    put_ratio(bound, out)
}
