//! The text of a batch: what became of each file, in order.
ghost use Rattle.std.specs.Prelude.{◌++◌, All, IfOk};
ghost use Rattle.std.specs.List.{AllZip};
ghost use Rattle.def_outside.specs.Cause.{HasCause};
ghost use Rattle.def_outside.specs.Sinks.{Writes};
ghost use Rattle.def_program.specs.BatchText.{file_line};
ghost use Rattle.xg_batch.specs.Texts.{CanBeShown, CanWritePart, IsTextPart, part_bytes};
ghost use Rattle.xg_batch.specs.Texts.{parts_bytes};

use crate::item::Item;
use crate::played_text::PlayedText;
use itoa::Buffer;
use std::alloc::{AllocError, Global};
use xg_engine::Variant;
use xg_io::{Sink, Writable, WriteFault, write_all};
use xg_load::fault_line;

/// What is written of a file.
#[derive(Drop)]
pub(crate) enum Part<'a> {
    /// The text of its game.
    Game(PlayedText<'a>),
    /// The line of its first fault.
    Fault(String),
}

/// What is written of all files, each below a line with its number.
#[derive(Clone, Copy)]
pub(crate) struct BatchText<'a> {
    pub(crate) parts: &'a [Part<'a>],
}

impl Writable for BatchText<'_> {
    ghost use Rattle.std.specs.Prelude.{All};
    ghost use Rattle.xg_batch.specs.Texts.{CanWritePart, parts_bytes};

    ghost bytes = { λ t. parts_bytes 1 t.parts.now };

    ghost can_write = { λ t. All CanWritePart t.parts.now };

    fn write<O: Sink>(&self, out: &mut O) -> Result<(), WriteFault> {
        write_parts(self.parts, out)
    }
}

/// What is written of what became of the files. The lines of faults take memory, so they are made before the first byte
/// is written.
pub(crate) fn parts_of<'a>(alloc: Global, items: &'a [Item]) -> Result<Vec<Part<'a>>, AllocError>
    requires { All CanBeShown items.now }
    ensures { IfOk result (λ parts. AllZip IsTextPart items.now parts.items) }
{
    let mut parts = Vec::with_capacity(alloc, items.len())?;
    'items: for i in 0..items.len() {
        let part = part_of(alloc, &items[i])?;
        parts.push_reserved(part);
    }
    Ok(parts)
}

fn part_of<'a>(alloc: Global, item: &'a Item) -> Result<Part<'a>, AllocError>
    requires { CanBeShown item.now }
    ensures { IfOk result (IsTextPart item.now) }
{
    match item {
        Item::Solved(engine) => match engine.outcome() {
            Some(outcome) => Ok(Part::Game(PlayedText {
                variant: Variant::Plain,
                form: engine.form(),
                outcome,
            })),
            None => unreachable!(),
        },
        Item::Refused(fault) => Ok(Part::Fault(fault_line(alloc, *fault)?)),
    }
}

fn write_parts<O: Sink>(parts: &[Part<'_>], out: &mut O) -> Result<(), WriteFault>
    requires { All CanWritePart parts.now }
    ensures text { Writes (O.written out.old) (O.written out.new) (parts_bytes 1 parts.now) result }
    ensures cause { HasCause (O.faults out.old) (O.faults out.new) result }
{
    'parts: for i in 0..parts.len() {
        write_part(i + 1, &parts[i], out)?;
    }
    Ok(())
}

/// Writes the line with a file's number, and then what is written of the file.
#[tactic(auto, using(xg_io::proofs::Pieces::prefix_first, xg_io::proofs::Pieces::then_rest))]
fn write_part<O: Sink>(number: usize, part: &Part<'_>, out: &mut O) -> Result<(), WriteFault>
    requires { CanWritePart part.now }
    ensures text { Writes (O.written out.old) (O.written out.new) (file_line number ++ part_bytes part.now) result }
    ensures cause { HasCause (O.faults out.old) (O.faults out.new) result }
{
    write_file_line(number, out)?;
    match part {
        Part::Game(text) => text.write(out),
        Part::Fault(line) => write_all(out, line.as_bytes()),
    }
}

#[tactic(auto, using(xg_io::proofs::Pieces::prefix_first, xg_io::proofs::Pieces::then_rest))]
fn write_file_line<O: Sink>(number: usize, out: &mut O) -> Result<(), WriteFault>
    ensures text { Writes (O.written out.old) (O.written out.new) (file_line number) result }
    ensures cause { HasCause (O.faults out.old) (O.faults out.new) result }
{
    let mut buffer = Buffer::new();
    write_all(out, b"file ")?;
    write_all(out, buffer.format(number).as_bytes())?;
    write_all(out, b"\n")
}
