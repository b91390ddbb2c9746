//! Reading the lines that have a field for each number.
ghost use Rattle.std.specs.Prelude.{◌≡◌, ◌≤◌, IfOk};
ghost use Rattle.std.specs.Fmt.{decimal};
ghost use Rattle.def_sums.specs.Limits.{most_rounds};
ghost use Rattle.def_tree.specs.Rules.{most_nodes};
ghost use Rattle.def_cert_text.specs.Fields.{space, feed, number};
ghost use Rattle.def_cert_text.specs.Formats.{and_then, fixed_field, fraction_field, whole_field};
ghost use Rattle.def_cert_text.specs.CertText.{after_word, unit_line, payoff_lines};
ghost use Rattle.def_cert_text.specs.CertText.{head_lines_of, line_of_round, value_line};
ghost use Rattle.def_cert_verdict.specs.Ranges.{most_printed};
ghost use Rattle.xg_cert_fields.specs.Reading.{GivesValue};
ghost use Rattle.xg_outcome.specs.Outcome.{head_of};
ghost use Rattle.xg_cert.specs.ReadCert.{set_reply_of};

use def_cert_text::{CertFault, TextVersion};
use def_reply::TraceLine;
use def_sums::{MOST_MASS, MOST_ROUNDS, MOST_SCALE};
use itoa::Buffer;
use xg_cert_fields::FieldReader;
use xg_frac::{Frac, MOST_PART, Ratio, zero};
use xg_outcome::Head;
use xg_tree::{MOST_ACTIONS, MOST_NODES};

/// A value and a choice.
#[derive(Clone, Copy)]
pub(crate) struct ValueLine {
    pub(crate) value: i128,
    pub(crate) choice: u32,
}

/// A word, and a number of each player.
fn pair_line(reader: &mut FieldReader<'_>, word: &[u8], low: u64) -> Result<(u32, u32), CertFault>
    ensures exact { GivesValue (λ p. p) result reader.new.left
        ((after_word word.now (and_then (whole_field low most_nodes space) (λ _. whole_field low most_nodes feed))).read
        reader.old.total reader.old.left) }
    ensures total { reader.new.total ≡ reader.old.total }
    ensures range { IfOk result (λ p. (p.0 ≤ most_nodes) × (p.1 ≤ most_nodes)) }
{
    let one = reader.named(word, low, MOST_NODES as u64, b' ')? as u32;
    let two = reader.whole(low, MOST_NODES as u64, b'\n')? as u32;
    Ok((one, two))
}

/// The unit, and the sum, which stands there where it isn't 0.
fn unit_line(reader: &mut FieldReader<'_>) -> Result<(u64, Frac), CertFault>
    ensures exact { GivesValue (λ p. p) result reader.new.left (unit_line.read reader.old.total reader.old.left) }
    ensures total { reader.new.total ≡ reader.old.total }
{
    reader.word(b"unit", b' ')?;
    let unit = reader.number_with_end(1, MOST_PART as u64)?;
    if unit.last {
        return Ok((unit.number, zero()));
    }
    reader.word(b"sum", b' ')?;
    let sum = reader.nonzero(b'\n')?;
    Ok((unit.number, sum))
}

/// The unit with the sum, and the mass. In version 2 the sum has a line of its own.
fn payoff_lines(
    reader: &mut FieldReader<'_>,
    version: TextVersion,
) -> Result<((u64, Frac), u64), CertFault>
    ensures exact { GivesValue (λ p. p) result reader.new.left
        ((payoff_lines version).read reader.old.total reader.old.left) }
    ensures total { reader.new.total ≡ reader.old.total }
{
    match version {
        TextVersion::One => {
            let unit = unit_line(reader)?;
            let mass = reader.named(b"mass", 0, MOST_MASS, b'\n')?;
            Ok((unit, mass))
        }
        TextVersion::Two => {
            let unit = reader.named(b"unit", 1, MOST_PART as u64, b'\n')?;
            let mass = reader.named(b"mass", 0, MOST_MASS, b'\n')?;
            reader.word(b"sum", b' ')?;
            let sum = reader.small(b'\n')?;
            Ok(((unit, sum), mass))
        }
    }
}

/// The game's numbers, and what was asked.
pub(crate) fn head_lines(
    reader: &mut FieldReader<'_>,
    version: TextVersion,
) -> Result<Head, CertFault>
    ensures exact { GivesValue head_of result reader.new.left
        ((head_lines_of version).read reader.old.total reader.old.left) }
    ensures total { reader.new.total ≡ reader.old.total }
    ensures sets { IfOk result (λ head. (head.sets.0 ≤ most_nodes) × (head.sets.1 ≤ most_nodes)) }
    ensures rounds { IfOk result (λ head. head.rounds ≤ most_rounds) }
    ensures every { IfOk result (λ head. (1 ≤ head.every) × (head.every ≤ most_rounds)) }
{
    let nodes = reader.named(b"nodes", 1, MOST_NODES as u64, b' ')? as u32;
    let leaves = reader.named(b"leaves", 1, MOST_NODES as u64, b'\n')? as u32;
    let sets = pair_line(reader, b"sets", 0)?;
    let sequences = pair_line(reader, b"sequences", 1)?;
    let ((unit, sum), mass) = payoff_lines(reader, version)?;
    let rounds = reader.named(b"rounds", 0, MOST_ROUNDS as u64, b' ')? as u32;
    let every = reader.named(b"every", 1, MOST_ROUNDS as u64, b' ')? as u32;
    let scale = reader.named(b"scale", 1, MOST_SCALE as u64, b'\n')? as u32;
    Ok(Head {
        nodes,
        leaves,
        sets,
        sequences,
        unit,
        sum,
        mass,
        rounds,
        every,
        scale,
    })
}

/// The line of the evaluation after a round.
pub(crate) fn trace_line(reader: &mut FieldReader<'_>, round: u32) -> Result<TraceLine, CertFault>
    ensures exact { GivesValue (λ line. line) result reader.new.left
        ((line_of_round round).read reader.old.total reader.old.left) }
    ensures total { reader.new.total ≡ reader.old.total }
{
    let latest = round as u64;
    reader.named(b"trace", latest, latest, b' ')?;
    let low_round = reader.whole(1, latest, b' ')? as u32;
    let low = reader.integer(b' ')?;
    let high_round = reader.whole(1, latest, b' ')? as u32;
    let high = reader.integer(b'\n')?;
    Ok(TraceLine {
        round,
        low_round,
        low,
        high_round,
        high,
    })
}

/// A word, and the number of a set, which is known.
pub(crate) fn set_named(
    reader: &mut FieldReader<'_>,
    word: &[u8],
    set: u32,
) -> Result<(), CertFault>
    ensures exact { GivesValue (λ _. tt) result reader.new.left
        ((after_word word.now (fixed_field number (decimal set) space)).read reader.old.total reader.old.left) }
    ensures total { reader.new.total ≡ reader.old.total }
{
    let mut buffer = Buffer::new();
    reader.word(word, b' ')?;
    reader.known_number(buffer.format(set).as_bytes(), b' ')
}

/// The line of a set in a reply.
pub(crate) fn value_line(reader: &mut FieldReader<'_>, set: u32) -> Result<ValueLine, CertFault>
    ensures exact { GivesValue set_reply_of result reader.new.left
        ((value_line set).read reader.old.total reader.old.left) }
    ensures total { reader.new.total ≡ reader.old.total }
{
    set_named(reader, b"value", set)?;
    let value = reader.integer(b' ')?;
    let choice = reader.whole(1, MOST_ACTIONS as u64, b'\n')? as u32;
    Ok(ValueLine { value, choice })
}

/// A word, and both ends of a bracket.
pub(crate) fn ends_line(
    reader: &mut FieldReader<'_>,
    word: &[u8],
) -> Result<(Ratio, Ratio), CertFault>
    ensures exact { GivesValue (λ p. p) result reader.new.left
        ((after_word word.now
        (and_then (fraction_field most_printed space) (λ _. fraction_field most_printed feed))).read
        reader.old.total reader.old.left) }
    ensures total { reader.new.total ≡ reader.old.total }
{
    reader.word(word, b' ')?;
    let low = reader.fraction(b' ')?;
    let high = reader.fraction(b'\n')?;
    Ok((low, high))
}
