//! Reading the lines of which there are many.
ghost use Rattle.std.specs.Prelude.{◌≡◌, ◌-◌, ◌+◌, ◌*◌, ◌/◌, ◌≤◌, min};
ghost use Rattle.def_sums.specs.Limits.{most_rounds};
ghost use Rattle.def_tree.specs.Rules.{most_nodes};
ghost use Rattle.def_cert_text.specs.CertText.{evaluation_count, line_of_round, round_of_evaluation, trace_lines};
ghost use Rattle.def_cert_text.specs.CertText.{plan_lines, reply_lines, weights_line};
ghost use Rattle.xg_cert_fields.specs.Reading.{GivesValue};
ghost use Rattle.xg_outcome.specs.Outcome.{head_of};
ghost use Rattle.xg_cert.specs.Answers.{Extends, GivesValueFor};

use crate::printed::{PlanLines, ReplyLines};
use crate::read_lines::{set_named, trace_line, value_line};
use crate::refused::CertRefused;
use def_cert_text::CertFault;
use def_reply::TraceLine;
use def_sums::MOST_ROOT;
use std::alloc::Global;
use xg_cert_fields::FieldReader;
use xg_outcome::Head;
use xg_tree::MOST_ACTIONS;

/// How many numbers may follow the first one of a set.
const MORE: u32 = MOST_ACTIONS - 1;

fn evaluation_count(head: &Head) -> u32
    requires rounds { head.now.rounds ≤ most_rounds }
    requires every { (1 ≤ head.now.every) × (head.now.every ≤ most_rounds) }
    ensures { result ≡ evaluation_count (head_of head.now) }
{
    (head.rounds + head.every - 1) / head.every
}

fn round_of_evaluation(head: &Head, k: u32) -> u32
    requires k { k ≤ most_rounds + most_rounds }
    requires rounds { head.now.rounds ≤ most_rounds }
    requires every { head.now.every ≤ most_rounds }
    ensures { result ≡ round_of_evaluation (head_of head.now) k }
{
    let round = k as u64 * head.every as u64;
    round.min(head.rounds as u64) as u32
}

/// A line for each evaluation.
pub(crate) fn trace_lines(
    reader: &mut FieldReader<'_>,
    alloc: Global,
    head: &Head,
) -> Result<Vec<TraceLine>, CertRefused>
    requires rounds { head.now.rounds ≤ most_rounds }
    requires every { (1 ≤ head.now.every) × (head.now.every ≤ most_rounds) }
    ensures exact { GivesValueFor (λ rows. rows.items) result reader.new.left
        ((trace_lines (head_of head.now)).read reader.old.total reader.old.left) }
    ensures total { reader.new.total ≡ reader.old.total }
{
    let count = evaluation_count(head);
    let mut rows = Vec::new(alloc);
    'rows: for i in 0..count {
        let row = trace_line(reader, round_of_evaluation(head, i + 1))?;
        rows.push(row)?;
    }
    Ok(rows)
}

/// The line of a set in a plan: its numbers, put behind those before.
fn weights_line(
    reader: &mut FieldReader<'_>,
    set: u32,
    numbers: &mut Vec<u64>,
) -> Result<(), CertRefused>
    ensures exact { Extends numbers.old.items numbers.new.items result reader.new.left
        ((weights_line set).read reader.old.total reader.old.left) }
    ensures total { reader.new.total ≡ reader.old.total }
{
    set_named(reader, b"weights", set)?;
    'items: for _ in 0..MORE {
        let item = reader.number_with_end(0, MOST_ROOT)?;
        numbers.push(item.number)?;
        if item.last {
            return Ok(());
        }
    }
    let number = reader.whole(0, MOST_ROOT, b'\n')?;
    numbers.push(number)?;
    Ok(())
}

/// A player's plan, by the player's digit: the root, and a line for each set.
pub(crate) fn plan_lines(
    reader: &mut FieldReader<'_>,
    alloc: Global,
    digit: &[u8],
    sets: u32,
) -> Result<PlanLines, CertRefused>
    requires { sets ≤ most_nodes }
    ensures exact { GivesValueFor (λ plan. plan) result reader.new.left
        ((plan_lines digit.now sets).read reader.old.total reader.old.left) }
    ensures total { reader.new.total ≡ reader.old.total }
{
    reader.word(b"plan", b' ')?;
    let root = reader.named(digit, 1, MOST_ROOT, b'\n')?;
    let mut numbers = Vec::new(alloc);
    numbers.push(root)?;
    let mut starts = Vec::new(alloc);
    starts.push(1)?;
    'sets: for i in 0..sets {
        weights_line(reader, i + 1, &mut numbers)?;
        starts.push(numbers.len())?;
    }
    Ok(PlanLines { numbers, starts })
}

/// A player's reply, by the player's digit: the total, and a line for each set.
pub(crate) fn reply_lines(
    reader: &mut FieldReader<'_>,
    alloc: Global,
    digit: &[u8],
    sets: u32,
) -> Result<ReplyLines, CertRefused>
    requires { sets ≤ most_nodes }
    ensures exact { GivesValueFor (λ reply. reply) result reader.new.left
        ((reply_lines digit.now sets).read reader.old.total reader.old.left) }
    ensures total { reader.new.total ≡ reader.old.total }
{
    reader.word(b"reply", b' ')?;
    reader.word(digit, b' ')?;
    let total = reader.integer(b'\n')?;
    let mut values = Vec::new(alloc);
    let mut choices = Vec::new(alloc);
    'sets: for i in 0..sets {
        let line = value_line(reader, i + 1)?;
        values.push(line.value)?;
        choices.push(line.choice)?;
    }
    Ok(ReplyLines {
        total,
        values,
        choices,
    })
}
