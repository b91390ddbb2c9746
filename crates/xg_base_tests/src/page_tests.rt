//! Few writes, and texts that are shorter and longer than a page.
ghost use Rattle.std.specs.Prelude.{◌<◌};

use std::alloc::Global;
use std::test::Fail;
use xg_io::{Failed, Sink, Writable, WriteFault, write_paged};
use xg_memory::MemSink;

/// How much a sink took, and in how many pieces.
#[derive(Drop)]
struct Tally {
    bytes: usize,
    calls: usize,
}

impl Sink for Tally {
    ghost use Rattle.std.specs.Prelude.{None};

    ghost written = { λ _. None };

    ghost faults = { λ _. 0 };

    ghost failed_length = { λ _. 0 };

    fn write(&mut self, piece: &[u8]) -> Result<usize, Failed> {
        self.bytes = self.bytes.saturating_add(piece.len());
        self.calls = self.calls.saturating_add(1);
        Ok(piece.len())
    }
}

/// Bytes that are written in pieces of at most this many.
#[derive(Clone, Copy)]
struct Letters<'a> {
    letters: &'a [u8],
    most: usize,
    ghost some: { 0 < most },
}

impl Writable for Letters<'_> {
    ghost bytes = { λ t. t.letters.now };

    fn write<O: Sink>(&self, out: &mut O) -> Result<(), WriteFault> {
        let mut rest = self.letters;
        while !rest.is_empty() {
            match out.write(&rest[..rest.len().min(self.most)]) {
                Ok(n) => rest = &rest[n..],
                Err(_) => return Err(WriteFault),
            }
        }
        Ok(())
    }
}

#[test]
fn many_pieces_are_few_writes(rt: HostRuntime) -> Result<(), Fail> {
    let letters = vec![in rt.alloc(); b'8'; 80_000]?;
    let mut tally = Tally { bytes: 0, calls: 0 };
    let text = Letters {
        letters: letters.as_slice(),
        most: 8,
    };
    assert!(rt;
        write_paged(&mut tally, &text).is_ok() && tally.bytes == 80_000 && tally.calls == 5
    );
    Ok(())
}

/// Writes so many bytes by way of a page, and says whether that failed and what was written.
fn written(
    alloc: Global,
    count: usize,
    room: usize,
    failing: &[u64],
) -> Result<(bool, usize), Fail> {
    let letters = vec![in alloc; 7u8; count]?;
    let mut sink = MemSink::new(alloc, room, failing)?;
    let text = Letters {
        letters: letters.as_slice(),
        most: usize::MAX,
    };
    let result = write_paged(&mut sink, &text);
    Ok((result.is_err(), sink.bytes().len()))
}

#[test]
fn texts_are_written_to_their_end_or_to_a_fault(rt: HostRuntime) -> Result<(), Fail> {
    let alloc = rt.alloc();
    assert!(rt;
        written(alloc, 0, 10, &[1])? == (false, 0)
            && written(alloc, 5, 10, &[2])? == (false, 5)
            && written(alloc, 5, 10, &[1])? == (true, 0)
            && written(alloc, 20_000, 20_000, &[])? == (false, 20_000)
            && written(alloc, 20_000, 20_000, &[2])? == (true, 16_384)
            && written(alloc, 20_000, 100, &[])? == (true, 100)
    );
    Ok(())
}
