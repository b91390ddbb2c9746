//! Parts of the text with a line for each row, or a number for each action.
ghost use Rattle.std.specs.Prelude.{◌<◌, length};
ghost use Rattle.def_outside.specs.Cause.{HasCause};
ghost use Rattle.def_cert_text.specs.Fields.{items_text};
ghost use Rattle.def_cert_text.specs.Formats.{each_items, text_of};
ghost use Rattle.def_cert_text.specs.CertText.{line_of_round, value_line, weights_line};
ghost use Rattle.def_outside.specs.Sinks.{Writes};
ghost use Rattle.xg_cert.specs.Printed.{plan_in, reply_in};

use crate::bounds::Bounds;
use crate::cert_lines::{put_trace_line, put_value_line};
use crate::fields::put_whole;
use crate::items::{Item, SPACE, put_items};
use def_reply::TraceLine;
use def_tree::Player;
use xg_io::{Sink, WriteFault};

pub(crate) fn put_trace<O: Sink>(rows: &[TraceLine], out: &mut O) -> Result<(), WriteFault>
    ensures text { Writes (O.written out.old) (O.written out.new) (items_text (each_items line_of_round 1 rows.now))
        result }
    ensures cause { HasCause (O.faults out.old) (O.faults out.new) result }
{
    'rows: for i in 0..rows.len() {
        put_trace_line(&rows[i], out)?;
    }
    Ok(())
}

/// The numbers of a player's sets, a line for each.
pub(crate) fn put_weights<B: Bounds, O: Sink>(
    bounds: &B,
    player: Player,
    out: &mut O,
) -> Result<(), WriteFault>
    requires { B.can_write bounds.now }
    ensures text { Writes (O.written out.old) (O.written out.new)
        (items_text (each_items weights_line 1 (plan_in player (B.printed bounds.now)).weights)) result }
    ensures cause { HasCause (O.faults out.old) (O.faults out.new) result }
{
    'sets: for i in 0..bounds.set_count(player) {
        put_weights_line(i + 1, bounds.weights(player, i + 1), out)?;
    }
    Ok(())
}

#[tactic(auto, using(crate::proofs::Written::first_two))]
fn put_weights_line<O: Sink>(set: u32, numbers: &[u64], out: &mut O) -> Result<(), WriteFault>
    requires { 0 < length numbers.now }
    ensures text { Writes (O.written out.old) (O.written out.new) (text_of (weights_line set) numbers.now) result }
    ensures cause { HasCause (O.faults out.old) (O.faults out.new) result }
{
    let start = [Item::Word(b"weights"), Item::Whole(set as u64, SPACE)];
    put_items(&start, out)?;
    let last = numbers.len() - 1;
    'numbers: for i in 0..last {
        put_whole(numbers[i], b' ', out)?;
    }
    put_whole(numbers[last], b'\n', out)
}

/// The values and choices of a player's reply, a line for each set.
pub(crate) fn put_values<B: Bounds, O: Sink>(
    bounds: &B,
    player: Player,
    out: &mut O,
) -> Result<(), WriteFault>
    requires { B.can_write bounds.now }
    ensures text { Writes (O.written out.old) (O.written out.new)
        (items_text (each_items value_line 1 (reply_in player (B.printed bounds.now)).sets)) result }
    ensures cause { HasCause (O.faults out.old) (O.faults out.new) result }
{
    'sets: for i in 0..bounds.set_count(player) {
        put_value_line(i + 1, bounds.set_reply(player, i + 1), out)?;
    }
    Ok(())
}
