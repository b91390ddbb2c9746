//! What is told of an accepted game.
ghost use Rattle.std.specs.Prelude.{◌≡◌, [], ◌∷◌, ◌++◌, IfOk, OnOk};
ghost use Rattle.def_outside.specs.Cause.{HasCause};
ghost use Rattle.def_outside.specs.Sinks.{Writes};
ghost use Rattle.xg_io.specs.Calls.{sink_call};
ghost use Rattle.def_file_tokens.specs.Texts.{escaped};
ghost use Rattle.def_cert_text.specs.CertText.{head_text};
ghost use Rattle.def_program.specs.Text.{info_front, info_text, between_marks};
ghost use Rattle.xg_outcome.specs.Outcome.{head_of};
ghost use Rattle.xg_load.specs.Endings.{Tells};

use crate::accepted::AcceptedGame;
use crate::ending::Ending;
use def_sums::MOST_SCALE;
use std::alloc::{AllocError, Global};
use xg_cert::{Head, write_head};
use xg_engine::Settings;
use xg_game::Game;
use xg_io::{Sink, WriteFault, write_all};
use xg_plan::Player;

/// No rounds, at the greatest scale.
const NO_ROUNDS: Settings = Settings {
    rounds: 0,
    every: 1,
    scale: MOST_SCALE,
};

/// Tells of an accepted game: its title, its players and its numbers.
pub fn tell<O: Sink>(alloc: Global, accepted: AcceptedGame, out: &mut O) -> Ending
    ensures { Tells (info_text accepted) (sink_call O.Sink out.old out.new) result }
{
    let head = accepted.head(NO_ROUNDS);
    let front = info_front(alloc, accepted.game());
    drop(accepted);
    match front {
        Ok(front) => Ending::of_written(write_info(&front, &head, out)),
        Err(_) => Ending::NoMemory,
    }
}

/// Writes what is told of a game: the lines before its numbers, and these. After an error a front of it was written.
#[tactic(auto, using(xg_io::proofs::Pieces::prefix_first, xg_io::proofs::Pieces::then_rest))]
fn write_info<O: Sink>(front: &[u8], head: &Head, out: &mut O) -> Result<(), WriteFault>
    ensures text { Writes (O.written out.old) (O.written out.new) (front.now ++ head_text (head_of head.now)) result }
    ensures cause { HasCause (O.faults out.old) (O.faults out.new) result }
{
    write_all(out, front)?;
    write_head(head, out)
}

/// What is told of a game before its numbers: its title and its players.
fn info_front(alloc: Global, game: &Game) -> Result<Vec<u8>, AllocError>
    ensures { IfOk result (λ text. text.items ≡ info_front game.now) }
{
    let mut text = Vec::new(alloc);
    put_named(&mut text, b"title ", game.title())?;
    text.push(b'\n')?;
    put_named(&mut text, b"players ", game.player_name(Player::One))?;
    put_named(&mut text, b" ", game.player_name(Player::Two))?;
    text.push(b'\n')?;
    Ok(text)
}

/// Puts a word and then a text between quotation marks last.
fn put_named(out: &mut Vec<u8>, word: &[u8], text: &[u8]) -> Result<(), AllocError>
    ensures { OnOk result (out.new.items ≡ out.old.items ++ (word.now ++ between_marks text.now)) }
{
    out.extend_from_slice(word)?;
    put_quoted(out, text)
}

/// Puts a text between quotation marks last, with a backslash before each mark inside.
fn put_quoted(out: &mut Vec<u8>, text: &[u8]) -> Result<(), AllocError>
    ensures { OnOk result (out.new.items ≡ out.old.items ++ between_marks text.now) }
{
    out.push(b'"')?;
    for byte in text {
        put_escaped(out, *byte)?;
    }
    out.push(b'"')?;
    Ok(())
}

/// Puts a byte of a text last, a quotation mark with a backslash before it.
#[tactic(auto, unfolding(def_file_tokens::specs::Texts::escaped))]
fn put_escaped(out: &mut Vec<u8>, byte: u8) -> Result<(), AllocError>
    ensures { OnOk result (out.new.items ≡ out.old.items ++ escaped (byte ∷ [])) }
{
    if byte == b'"' {
        out.push(b'\\')?;
    }
    out.push(byte)?;
    Ok(())
}
