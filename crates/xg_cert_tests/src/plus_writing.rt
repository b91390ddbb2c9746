//! A text of CFR+, written and then read.
ghost use Rattle.std.specs.Prelude.{IfOk};
ghost use Rattle.def_plan.specs.Form.{player_sets};
ghost use Rattle.xg_outcome.specs.Outcome.{end_seen};
ghost use Rattle.def_cert_accepted.specs.Writable.{IsEndOf, IsOutcomeOf};

use crate::reading::is_refused;
use def_tree::Player;
use std::alloc::{AllocError, Global};
use std::process::Abort;
use std::test::Fail;
use xg_cert::{CertFault, End, Head, Outcome, TraceRow, write_plus};
use xg_closer::{Regrets, play_into};
use xg_frac::zero;
use xg_memory::MemSink;
use xg_numbers::Numbers;
use xg_plan::{Plan, Play, Reply, from_play};
use xg_read::{MOST_BYTES, read_game};
use xg_seq::SeqForm;
use xg_test_data::files::PENNIES;

/// Matching pennies after one round, in which both players play evenly.
const TEXT: &str = r#"XGPLUS 1
nodes 7 leaves 4
sets 1 1
sequences 3 3
unit 1
mass 4
sum 0
rounds 1 every 1 scale 16384
trace 1 1 0 1 0
plan 1 16384
weights 1 8192 8192
reply 2 0
value 1 0 1
plan 2 16384
weights 1 8192 8192
reply 1 0
value 1 0 1
bracket 0 0
second 0 0
end
"#;

const LINE: TraceRow = TraceRow {
    round: 1,
    low_round: 1,
    low: 0,
    high_round: 1,
    high: 0,
};

/// The even plan of a player, and a reply of the other one that is worth nothing.
fn even_end(alloc: Global, form: &SeqForm, player: Player, other: Player) -> Result<End, AllocError>
    ensures { IfOk result (λ end. IsEndOf (player_sets form.now player) (player_sets form.now other) (end_seen end)) }
{
    let regrets = Regrets::new(alloc, form, player)?;
    let mut play = Play::new(alloc, form, player)?;
    let mut plan = Plan::new(alloc, form, player)?;
    let reply = Reply::new(alloc, form, other)?;
    play_into(form, player, &regrets, &mut play);
    from_play(form, player, &play, 16_384, &mut plan);
    Ok(End { plan, reply })
}

fn even_outcome(alloc: Global, form: &SeqForm) -> Result<Outcome, AllocError>
    ensures outcome { IfOk result (λ outcome. IsOutcomeOf form.now outcome) }
{
    let trace = vec![in alloc; LINE; 1]?;
    let lower = even_end(alloc, form, Player::One, Player::Two)?;
    let upper = even_end(alloc, form, Player::Two, Player::One)?;
    let head = Head {
        nodes: 7,
        leaves: 4,
        sets: (1, 1),
        sequences: (3, 3),
        unit: 1,
        sum: zero(),
        mass: 4,
        rounds: 1,
        every: 1,
        scale: 16_384,
    };
    Ok(Outcome::new(head, trace, Some((lower, upper))))
}

fn even_text(alloc: Global, form: &SeqForm) -> Result<MemSink, Fail> {
    let mut out = MemSink::new(alloc, 1_000, &[])?;
    let outcome = even_outcome(alloc, form)?;
    let written = write_plus(form, &outcome, &mut out);
    drop(outcome);
    written?;
    Ok(out)
}

fn numbers_of(rt: &impl Abort, alloc: Global, file: &str) -> Result<Numbers, Fail> {
    assert!(rt; file.len() <= MOST_BYTES);
    let game = read_game(alloc, file.as_bytes())?;
    let numbers = Numbers::open(alloc, &game);
    drop(game);
    Ok(numbers?)
}

#[test]
fn texts_of_plus_are_no_certificates(rt: HostRuntime) -> Result<(), Fail> {
    let numbers = numbers_of(&rt, rt.alloc(), PENNIES)?;
    let text = even_text(rt.alloc(), numbers.form());
    drop(numbers);
    let text = text?;
    assert!(rt;
        text.bytes() == TEXT.as_bytes()
            && is_refused(rt.alloc(), text.bytes(), CertFault::CertSyntax { at: 0 })
    );
    Ok(())
}
