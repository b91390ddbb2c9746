//! The line of a node.
ghost use Rattle.std.specs.Prelude.{◌≢◌, ◌-◌, ◌≤◌, length, slice_index_or};
ghost use Rattle.def_outside.specs.Cause.{HasCause};
ghost use Rattle.def_file.specs.Content.{sets_of_kind};
ghost use Rattle.def_file.specs.Faults.{set_at};
ghost use Rattle.def_file.specs.Game.{GoesWith};
ghost use Rattle.def_canon.specs.Canon.{action_pieces, each, node_pieces, outcome_pieces, place_pieces, set_pieces};
ghost use Rattle.def_canon.specs.Canon.{text_of_pieces};
ghost use Rattle.def_outside.specs.Sinks.{Writes};
ghost use Rattle.xg_gen.specs.Writes.{no_action};

use crate::items::{Item, Mark, put_item, put_items};
use crate::tokens::{put_fraction, put_number, put_text};
use xg_game::Game;
use xg_io::{Sink, WriteFault};
use xg_tree::{Kind, Node, Player};

/// The line of a node with this name.
pub(crate) fn put_node<O: Sink>(
    game: &Game,
    node: Node,
    name: &[u8],
    out: &mut O,
) -> Result<(), WriteFault>
    requires { GoesWith game.now.sets game.now.outcomes node }
    ensures text { Writes (O.written out.old) (O.written out.new)
        (text_of_pieces (node_pieces game.now.sets game.now.outcomes node name.now)) result }
    ensures cause { HasCause (O.faults out.old) (O.faults out.new) result }
{
    let items = [
        Item::Mark(Mark::Letter(node.kind)),
        Item::Text(name),
        Item::Mover(node.kind),
    ];
    put_items(&items, out)?;
    put_place(game, node.kind, node.set, out)?;
    put_outcome(game, node.outcome, out)
}

/// The set of a node, unless it is a leaf.
#[tactic(auto, using(crate::proofs::Written::nothing), unfolding(def_canon::specs::Canon::place_pieces))]
fn put_place<O: Sink>(game: &Game, kind: Kind, set: u32, out: &mut O) -> Result<(), WriteFault>
    requires from_one { kind ≢ Kind.Leaf → 1 ≤ set }
    requires there { kind ≢ Kind.Leaf → set ≤ length (sets_of_kind kind game.now.sets) }
    ensures text { Writes (O.written out.old) (O.written out.new) (text_of_pieces (place_pieces kind game.now.sets set))
        result }
    ensures cause { HasCause (O.faults out.old) (O.faults out.new) result }
{
    match kind {
        Kind::Leaf => Ok(()),
        Kind::Chance | Kind::One | Kind::Two => put_set(game, kind, set, out),
    }
}

/// The whole description of a set, with its actions in braces.
fn put_set<O: Sink>(game: &Game, kind: Kind, set: u32, out: &mut O) -> Result<(), WriteFault>
    requires kind { kind ≢ Kind.Leaf }
    requires from_one { 1 ≤ set }
    requires there { set ≤ length (sets_of_kind kind game.now.sets) }
    ensures text { let entry = set_at (sets_of_kind kind game.now.sets) (set - 1) in
        Writes (O.written out.old) (O.written out.new) (text_of_pieces (set_pieces kind entry)) result }
    ensures cause { HasCause (O.faults out.old) (O.faults out.new) result }
{
    let items = [
        Item::Number(game.set_number(kind, set)),
        Item::Name(game.set_name(kind, set)),
        Item::Mark(Mark::Open),
    ];
    put_items(&items, out)?;
    put_actions(game, kind, set, out)?;
    put_item(&Item::Mark(Mark::Close), out)
}

/// The actions of a set.
fn put_actions<O: Sink>(game: &Game, kind: Kind, set: u32, out: &mut O) -> Result<(), WriteFault>
    requires kind { kind ≢ Kind.Leaf }
    requires from_one { 1 ≤ set }
    requires there { set ≤ length (sets_of_kind kind game.now.sets) }
    ensures text { let entry = set_at (sets_of_kind kind game.now.sets) (set - 1) in
        Writes (O.written out.old) (O.written out.new) (text_of_pieces (each (action_pieces kind) entry.actions))
        result }
    ensures cause { HasCause (O.faults out.old) (O.faults out.new) result }
{
    'actions: for i in 0..game.action_count(kind, set) {
        put_action(game, kind, set, i + 1, out)?;
    }
    Ok(())
}

/// An action of a set, with its probability where chance moves.
#[tactic(auto, using(crate::proofs::Written::nothing, crate::proofs::Actions::chance_at), unfolding(def_canon::specs::Canon::chance_pieces))]
fn put_action<O: Sink>(
    game: &Game,
    kind: Kind,
    set: u32,
    action: u32,
    out: &mut O,
) -> Result<(), WriteFault>
    requires kind { kind ≢ Kind.Leaf }
    requires from_one { 1 ≤ set }
    requires there { set ≤ length (sets_of_kind kind game.now.sets) }
    requires action_from_one { 1 ≤ action }
    requires action_there { let entry = set_at (sets_of_kind kind game.now.sets) (set - 1) in
        action ≤ length entry.actions }
    ensures text { let entry = set_at (sets_of_kind kind game.now.sets) (set - 1) in
        Writes (O.written out.old) (O.written out.new)
        (text_of_pieces (action_pieces kind (slice_index_or entry.actions (action - 1) no_action))) result }
    ensures cause { HasCause (O.faults out.old) (O.faults out.new) result }
{
    put_text(game.action_name(kind, set, action), out)?;
    match kind {
        Kind::Chance => put_fraction(game.chance(set, action), out),
        Kind::One | Kind::Two | Kind::Leaf => Ok(()),
    }
}

/// An outcome: the whole description, or the number alone of the null outcome.
#[tactic(auto, unfolding(def_canon::specs::Canon::outcome_pieces))]
fn put_outcome<O: Sink>(game: &Game, outcome: u32, out: &mut O) -> Result<(), WriteFault>
    requires { outcome ≤ length game.now.outcomes }
    ensures text { Writes (O.written out.old) (O.written out.new)
        (text_of_pieces (outcome_pieces game.now.outcomes outcome)) result }
    ensures cause { HasCause (O.faults out.old) (O.faults out.new) result }
{
    if outcome == 0 {
        return put_number(0, out);
    }
    let items = [
        Item::Number(game.outcome_number(outcome)),
        Item::Name(game.outcome_name(outcome)),
        Item::Mark(Mark::Open),
        Item::Fraction(game.payoff(outcome, Player::One)),
        Item::Mark(Mark::Comma),
        Item::Fraction(game.payoff(outcome, Player::Two)),
        Item::Mark(Mark::Close),
    ];
    put_items(&items, out)
}
