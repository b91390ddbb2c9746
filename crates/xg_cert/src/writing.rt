//! The whole text.
ghost use Rattle.std.specs.Prelude.{◌≡◌, OnOk, OnErr, IfSome};
ghost use Rattle.std.specs.Io.KnownBytes.{append_known};
ghost use Rattle.std.specs.Option.{option_map};
ghost use Rattle.def_outside.specs.Cause.{HasCause};
ghost use Rattle.def_outside.specs.Sinks.{AppendsPrefix, Writes};
ghost use Rattle.def_cert_accepted.specs.OfOutcome.{certificate_of};
ghost use Rattle.def_cert_text.specs.CertText.{versioned_text};
ghost use Rattle.def_cert_text.specs.PlusText.{plus_text};
ghost use Rattle.def_cert_versions.specs.Upgrade.{IsUpgradable};
ghost use Rattle.def_cert_versions.specs.Verdict.{in_version_two, upgraded};
ghost use Rattle.xg_outcome.specs.Outcome.{head_of};
ghost use Rattle.xg_cert.specs.Printed.{plan_in, reply_in};
ghost use Rattle.def_cert_accepted.specs.Writable.{IsOutcomeOf};
ghost use Rattle.xg_cert.specs.Writable.{LeavesSecond, above_text, below_text};
ghost use Rattle.xg_cert.specs.Writable.{end_text, text_under};

use crate::bounds::{Bounds, FormBounds};
use crate::cert::Cert;
use crate::cert_lines::{FirstLine, put_ends_line, put_first_line, put_last_line};
use crate::items::{FEED, Item, SPACE, put_items};
use crate::lines::{put_counts, wide};
use crate::lists::{put_trace, put_values, put_weights};
use crate::second::second_end;
use def_tree::Player;
use xg_io::{Sink, WriteFault};
use xg_outcome::{Head, Outcome};
use xg_seq::SeqForm;

/// A plan of the player that the first digit names, and the reply of the other player.
fn put_end<'a, B: Bounds, O: Sink>(
    bounds: &B,
    player: Player,
    other: Player,
    digit: &'a [u8],
    reply_digit: &'a [u8],
    out: &mut O,
) -> Result<(), WriteFault>
    requires { B.can_write bounds.now }
    ensures text { Writes (O.written out.old) (O.written out.new)
        (end_text digit.now reply_digit.now (plan_in player (B.printed bounds.now))
        (reply_in other (B.printed bounds.now))) result }
    ensures cause { HasCause (O.faults out.old) (O.faults out.new) result }
{
    let root = Item::Whole(bounds.root(player), FEED);
    put_items(&[Item::Word(b"plan"), Item::Word(digit), root], out)?;
    put_weights(bounds, player, out)?;
    let total = Item::Signed(bounds.total(other), FEED);
    put_items(&[Item::Word(b"reply"), Item::Word(reply_digit), total], out)?;
    put_values(bounds, other, out)
}

/// All below the head, which is there where a round was asked: the trace, both ends, the bracket, and that of player
/// two's own payoff, which is what the sum leaves of both ends, in the other order.
fn put_below<B: Bounds, O: Sink>(
    head: &Head,
    bounds: Option<&B>,
    out: &mut O,
) -> Result<(), WriteFault>
    requires { IfSome bounds (λ b. B.can_write b.now × LeavesSecond (head_of head.now) (B.printed b.now)) }
    ensures text { Writes (O.written out.old) (O.written out.new)
        (below_text head.now.sum (option_map (λ b. B.printed b.now) bounds.entry)) result }
    ensures cause { HasCause (O.faults out.old) (O.faults out.new) result }
{
    let Some(bounds) = bounds else {
        return Ok(());
    };
    let (low, high) = bounds.bracket();
    let second_low = second_end(head.sum, head.unit, bounds.root(Player::Two), high);
    let second_high = second_end(head.sum, head.unit, bounds.root(Player::One), low);
    put_trace(bounds.trace(), out)?;
    put_end(bounds, Player::One, Player::Two, b"1", b"2", out)?;
    put_end(bounds, Player::Two, Player::One, b"2", b"1", out)?;
    put_ends_line(b"bracket", low, high, out)?;
    put_ends_line(b"second", second_low, second_high, out)
}

/// The first line, the game's numbers, and what was asked.
fn put_above<O: Sink>(first: FirstLine, head: &Head, out: &mut O) -> Result<(), WriteFault>
    ensures text { Writes (O.written out.old) (O.written out.new) (above_text first (head_of head.now)) result }
    ensures cause { HasCause (O.faults out.old) (O.faults out.new) result }
{
    let items = [
        Item::Word(b"unit"),
        Item::Whole(head.unit, FEED),
        Item::Word(b"mass"),
        Item::Whole(head.mass, FEED),
        Item::Word(b"sum"),
        Item::Fraction(wide(head.sum), FEED),
        Item::Word(b"rounds"),
        Item::Whole(head.rounds as u64, SPACE),
        Item::Word(b"every"),
        Item::Whole(head.every as u64, SPACE),
        Item::Word(b"scale"),
        Item::Whole(head.scale as u64, FEED),
    ];
    put_first_line(first, out)?;
    put_counts(head, out)?;
    put_items(&items, out)
}

fn put_text<B: Bounds, O: Sink>(
    first: FirstLine,
    head: &Head,
    bounds: Option<&B>,
    out: &mut O,
) -> Result<(), WriteFault>
    requires { IfSome bounds (λ b. B.can_write b.now × LeavesSecond (head_of head.now) (B.printed b.now)) }
    ensures text { Writes (O.written out.old) (O.written out.new)
        (text_under first (in_version_two (record {
          head = head_of head.now;
          bounds = option_map (λ b. B.printed b.now) bounds.entry;
        }))) result }
    ensures cause { HasCause (O.faults out.old) (O.faults out.new) result }
{
    put_above(first, head, out)?;
    put_below(head, bounds, out)?;
    put_last_line(out)
}

fn put_outcome<O: Sink>(
    first: FirstLine,
    form: &SeqForm,
    outcome: &Outcome,
    out: &mut O,
) -> Result<(), WriteFault>
    requires outcome { IsOutcomeOf form.now outcome.now }
    ensures text { Writes (O.written out.old) (O.written out.new)
        (text_under first (in_version_two (certificate_of form.now outcome.now))) result }
    ensures cause { HasCause (O.faults out.old) (O.faults out.new) result }
{
    let head = outcome.head();
    let Some((lower, upper)) = outcome.ends() else {
        return put_text::<Cert, O>(first, head, None, out);
    };
    let bounds = FormBounds {
        form,
        unit: head.unit,
        trace: outcome.trace(),
        lower,
        upper,
    };
    put_text(first, head, Some(&bounds), out)
}

/// Writes the whole text, version 2. After an error a front of it was written. Takes no memory.
pub fn write_cert<O: Sink>(form: &SeqForm, outcome: &Outcome, out: &mut O) -> Result<(), WriteFault>
    requires outcome { IsOutcomeOf form.now outcome.now }
    ensures appended { OnOk result (O.written out.new ≡ append_known (O.written out.old)
        (versioned_text (in_version_two (certificate_of form.now outcome.now)))) }
    ensures prefix { OnErr result (AppendsPrefix (O.written out.old) (O.written out.new)
        (versioned_text (in_version_two (certificate_of form.now outcome.now)))) }
    ensures cause { HasCause (O.faults out.old) (O.faults out.new) result }
{
    put_outcome(FirstLine::Certificate, form, outcome, out)
}

/// Writes the whole text of a run of CFR+. After an error a front of it was written. Takes no memory.
pub fn write_plus<O: Sink>(form: &SeqForm, outcome: &Outcome, out: &mut O) -> Result<(), WriteFault>
    requires outcome { IsOutcomeOf form.now outcome.now }
    ensures appended { OnOk result (O.written out.new ≡ append_known (O.written out.old)
        (plus_text (in_version_two (certificate_of form.now outcome.now)))) }
    ensures prefix { OnErr result (AppendsPrefix (O.written out.old) (O.written out.new)
        (plus_text (in_version_two (certificate_of form.now outcome.now)))) }
    ensures cause { HasCause (O.faults out.old) (O.faults out.new) result }
{
    put_outcome(FirstLine::Plus, form, outcome, out)
}

fn put_upgraded<O: Sink>(cert: &Cert, out: &mut O) -> Result<(), WriteFault>
    requires { IsUpgradable cert.now }
    ensures text { Writes (O.written out.old) (O.written out.new) (versioned_text (upgraded cert.now)) result }
    ensures cause { HasCause (O.faults out.old) (O.faults out.new) result }
{
    let head = cert.head();
    if head.rounds == 0 {
        return put_text::<Cert, O>(FirstLine::Certificate, head, None, out);
    }
    put_text(FirstLine::Certificate, head, Some(cert), out)
}

/// Writes what a certificate says in version 2, with the second bracket. After an error a front of the text was
/// written. Takes no memory.
pub fn write_upgraded<O: Sink>(cert: &Cert, out: &mut O) -> Result<(), WriteFault>
    requires { IsUpgradable cert.now }
    ensures appended { OnOk result (O.written out.new ≡ append_known (O.written out.old)
        (versioned_text (upgraded cert.now))) }
    ensures prefix { OnErr result (AppendsPrefix (O.written out.old) (O.written out.new)
        (versioned_text (upgraded cert.now))) }
    ensures cause { HasCause (O.faults out.old) (O.faults out.new) result }
{
    put_upgraded(cert, out)
}
