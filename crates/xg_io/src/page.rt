//! A page of memory before a sink.
ghost use Rattle.std.specs.Prelude.{◌≡◌, ◌+◌, ◌-◌, ◌≤◌, ◌<◌, Option, List, ℕ, ◌++◌, IfOk, OnOk, OnErr, length, take};
ghost use Rattle.std.specs.Prelude.{min};
ghost use Rattle.std.specs.Io.KnownBytes.{append_known};
ghost use Rattle.def_outside.specs.Cause.{HasCause};
ghost use Rattle.xg_io.specs.Waiting.{IsGrown, page_size, waiting_in, with_waiting};

use crate::{Failed, Sink, WriteFault};

/// How many bytes a page holds: `page_size` of the definitions.
const SIZE: usize = 16384;

/// A sink, the bytes that wait for it, from `start` to `end`, and what became of the text in the end. The page takes no
/// memory of its own.
pub struct Page<'a, O: Sink> {
    pub(crate) sink: &'a mut O,
    bytes: [u8; SIZE],
    pub(crate) start: usize,
    pub(crate) end: usize,
    // how long the piece was that was put last and that the sink had no room for
    pub(crate) failed_length: usize,
    pub(crate) outcome: Result<(), WriteFault>,
    ghost order: { start ≤ end },
    ghost within: { end ≤ page_size },
}

impl<'a, O: Sink> Page<'a, O> {
    /// A page where nothing waits.
    pub(crate) fn new(sink: &'a mut O) -> Page<'a, O>
        ensures same_reference { result.sink.ghost_name ≡ sink.entry.ghost_name }
        ensures same_sink { result.sink.now ≡ sink.old }
        ensures empty { result.start ≡ result.end }
    {
        Page {
            sink,
            bytes: blank(),
            start: 0,
            end: 0,
            failed_length: 0,
            outcome: Ok(()),
        }
    }

    /// Takes bytes from the front of the piece, and says how many. What waits goes to the sink before where the page is
    /// full.
    pub(crate) fn put(&mut self, piece: &[u8]) -> Result<usize, Failed>
        requires { 0 < length piece.now }
        ensures same_reference { self.new.sink.ghost_name ≡ self.old.sink.ghost_name }
        ensures some_taken { IfOk result (λ n. 0 < n) }
        ensures count { IfOk result (λ n. n ≤ length piece.now) }
        ensures appended { IfOk result
            (λ n. with_waiting (O.written self.new.sink.now) self.new.bytes self.new.start self.new.end
            ≡ append_known (with_waiting (O.written self.old.sink.now) self.old.bytes self.old.start self.old.end)
            (take n piece.now)) }
        ensures same_written { OnErr result
            (with_waiting (O.written self.new.sink.now) self.new.bytes self.new.start self.new.end
            ≡ with_waiting (O.written self.old.sink.now) self.old.bytes self.old.start self.old.end) }
        ensures grown { (before : Option (List ℕ)) → IsGrown before (O.written self.old.sink.now)
            → IsGrown before (O.written self.new.sink.now) }
        ensures failed_piece { OnErr result (self.new.failed_length ≡ length piece.now) }
        ensures same_failed { OnOk result (self.new.failed_length ≡ self.old.failed_length) }
        ensures cause { HasCause (O.faults self.old.sink.now) (O.faults self.new.sink.now) result }
    {
        if self.end == SIZE {
            let Ok(()) = self.turn() else {
                self.failed_length = piece.len();
                return Err(Failed);
            };
        }
        Ok(self.keep(piece))
    }

    /// Hands what waits to the sink. After an error what is left of it waits.
    #[cold]
    #[inline(never)]
    pub(crate) fn turn(&mut self) -> Result<(), WriteFault>
        ensures same_reference { self.new.sink.ghost_name ≡ self.old.sink.ghost_name }
        ensures emptied { OnOk result ((self.new.start ≡ 0) × (self.new.end ≡ 0)) }
        ensures some_wait { OnErr result (0 < length (waiting_in self.new.bytes self.new.start self.new.end)) }
        ensures same_written { with_waiting (O.written self.new.sink.now) self.new.bytes self.new.start self.new.end
            ≡ with_waiting (O.written self.old.sink.now) self.old.bytes self.old.start self.old.end }
        ensures grown { (before : Option (List ℕ)) → IsGrown before (O.written self.old.sink.now)
            → IsGrown before (O.written self.new.sink.now) }
        ensures same_failed { self.new.failed_length ≡ self.old.failed_length }
        ensures cause { HasCause (O.faults self.old.sink.now) (O.faults self.new.sink.now) result }
    {
        let (taken, written) = write_part(self.sink, &self.bytes, self.start, self.end);
        self.start += taken;
        if written.is_ok() {
            self.start = 0;
            self.end = 0;
        }
        written
    }

    // Keeps bytes from the front of the piece, as many as there is room for.
    fn keep(&mut self, piece: &[u8]) -> usize
        requires { self.old.end < page_size }
        ensures same_reference { self.new.sink.ghost_name ≡ self.old.sink.ghost_name }
        ensures same_sink { self.new.sink.now ≡ self.old.sink.now }
        ensures same_failed { self.new.failed_length ≡ self.old.failed_length }
        ensures count { result ≡ min (length piece.now) (page_size - self.old.end) }
        ensures waiting { waiting_in self.new.bytes self.new.start self.new.end
            ≡ waiting_in self.old.bytes self.old.start self.old.end ++ take result piece.now }
    {
        let n = piece.len().min(SIZE - self.end);
        self.bytes[self.end..self.end + n].copy_from_slice(&piece[..n]);
        self.end += n;
        n
    }

    /// Lets the sink go. What waits is lost.
    pub(crate) fn leave(self)
        ensures { self.exit.0.now ≡ self.entry.sink.now }
    {
        let Page {
            sink: _,
            bytes: _,
            start: _,
            end: _,
            failed_length: _,
            outcome: _,
        } = self;
    }
}

// No bytes yet.
fn blank() -> [u8; SIZE] {
    [0; SIZE]
}

// Writes a part of the bytes as far as the sink takes it, and says how many it took.
fn write_part<O: Sink>(
    sink: &mut O,
    bytes: &[u8],
    start: usize,
    end: usize,
) -> (usize, Result<(), WriteFault>)
    requires order { start ≤ end }
    requires within { end ≤ length bytes.now }
    ensures count { start + result.0 ≤ end }
    ensures all { OnOk result.1 (start + result.0 ≡ end) }
    ensures some_left { OnErr result.1 (start + result.0 < end) }
    ensures appended { O.written sink.new
        ≡ append_known (O.written sink.old) (take result.0 (waiting_in bytes.now start end)) }
    ensures cause { HasCause (O.faults sink.old) (O.faults sink.new) result.1 }
{
    let part = &bytes[start..end];
    let mut taken = 0;
    while taken < part.len() {
        match sink.write(&part[taken..]) {
            Ok(n) => taken += n,
            Err(_) => return (taken, Err(WriteFault)),
        }
    }
    (taken, Ok(()))
}
