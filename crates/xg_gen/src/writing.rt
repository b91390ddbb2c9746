//! A game in its canonical form.
ghost use Rattle.std.specs.Prelude.{◌≡◌, OnOk, OnErr};
ghost use Rattle.std.specs.List.{zip};
ghost use Rattle.std.specs.Io.KnownBytes.{append_known};
ghost use Rattle.def_outside.specs.Cause.{HasCause};
ghost use Rattle.def_outside.specs.Sinks.{AppendsPrefix, Writes};
ghost use Rattle.def_tree.specs.Tree.{prefix};
ghost use Rattle.def_canon.specs.Canon.{canon, lines_pieces, prologue_pieces, text_of_pieces};

use crate::items::{Item, Mark, put_items};
use crate::lines::put_node;
use xg_game::Game;
use xg_io::{Sink, WriteFault, write_all};
use xg_tree::Player;

/// Writes a game in its canonical form: a line for each node, with the whole description of its set and its outcome.
/// After an error a front of the text was written. Takes no memory.
pub fn write_game<O: Sink>(game: &Game, out: &mut O) -> Result<(), WriteFault>
    ensures appended { OnOk result (O.written out.new ≡ append_known (O.written out.old) (canon game.now)) }
    ensures prefix { OnErr result (AppendsPrefix (O.written out.old) (O.written out.new) (canon game.now)) }
    ensures cause { HasCause (O.faults out.old) (O.faults out.new) result }
{
    put_game(game, out)
}

fn put_game<O: Sink>(game: &Game, out: &mut O) -> Result<(), WriteFault>
    ensures text { Writes (O.written out.old) (O.written out.new) (canon game.now) result }
    ensures cause { HasCause (O.faults out.old) (O.faults out.new) result }
{
    put_prologue(game, out)?;
    put_lines(game, out)?;
    write_all(out, b"\n")
}

/// The first two lines, but for the line feed behind them.
fn put_prologue<O: Sink>(game: &Game, out: &mut O) -> Result<(), WriteFault>
    ensures text { Writes (O.written out.old) (O.written out.new) (text_of_pieces (prologue_pieces game.now.prologue))
        result }
    ensures cause { HasCause (O.faults out.old) (O.faults out.new) result }
{
    let items = [
        Item::Mark(Mark::First),
        Item::Text(game.title()),
        Item::Mark(Mark::Open),
        Item::Text(game.player_name(Player::One)),
        Item::Text(game.player_name(Player::Two)),
        Item::Mark(Mark::Close),
        Item::Line(game.comment()),
    ];
    put_items(&items, out)
}

/// The lines of the nodes.
fn put_lines<O: Sink>(game: &Game, out: &mut O) -> Result<(), WriteFault>
    ensures text { Writes (O.written out.old) (O.written out.new)
        (text_of_pieces (lines_pieces game.now.sets game.now.outcomes (zip (prefix game.now.tree) game.now.names)))
        result }
    ensures cause { HasCause (O.faults out.old) (O.faults out.new) result }
{
    let tree = game.tree();
    'nodes: for i in 0..tree.len() {
        put_node(game, tree.node(i + 1), game.node_name(i + 1), out)?;
    }
    Ok(())
}
