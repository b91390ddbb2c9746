//! The adapters over sources and sinks of the tests' own, which fail and stop short where a test wants it.
ghost use Rattle.std.specs.Prelude.{◌≡◌, None, true, IsErr};

use std::alloc::{Allocator, Global};
use std::fs::{Metadata, OpenFile, OpenOptions};
use std::io::{ErrorKind, Read, Seek, SeekFrom, Write};
use std::test::Fail;
use std::{io, rt};
use xg_io::{
    Failed, Files, OpenFault, ReadAllFault, RealFiles, RealSink, Sink, WriteFault, read_all,
    write_all,
};

const CONTENT: &[u8] = b"abcdefg";

static NAMES: [&str; 7] = ["game", " a game ", "\ta", "a\n", "a//b", "./a/", ""];

/// A system with one file, of which a read gives at most three bytes.
#[derive(Drop)]
struct OneFile {
    /// The place of its name in `NAMES`.
    name: usize,
    /// Why the file can't be opened, where it can't.
    refusal: Option<ErrorKind>,
    /// The number of the read that fails, from 1.
    failing: u64,
}

#[derive(Drop)]
struct Source {
    at: usize,
    reads: u64,
    failing: u64,
}

fn unsupported<T: Drop>() -> io::Result<T>
    ensures { IsErr result }
{
    Err(ErrorKind::Unsupported.into())
}

impl rt::Files for OneFile {
    type File = Source;

    type Dir = Source;

    fn open_file(&self, _how: &OpenOptions, path: &str) -> io::Result<Source> {
        if let Some(kind) = self.refusal {
            return Err(kind.into());
        }
        if NAMES.get(self.name) != Some(&path) {
            return Err(ErrorKind::NotFound.into());
        }
        Ok(Source {
            at: 0,
            reads: 0,
            failing: self.failing,
        })
    }

    fn open_dir(&self, _path: &str) -> io::Result<Source> {
        unsupported()
    }

    fn metadata(&self, _path: &str) -> io::Result<Metadata> {
        unsupported()
    }

    fn symlink_metadata(&self, _path: &str) -> io::Result<Metadata> {
        unsupported()
    }

    fn copy(&self, _from: &str, _to: &str) -> io::Result<u64> {
        unsupported()
    }

    fn rename(&self, _from: &str, _to: &str) -> io::Result<()> {
        unsupported()
    }

    fn remove_file(&self, _path: &str) -> io::Result<()> {
        unsupported()
    }

    fn create_dir(&self, _path: &str) -> io::Result<()> {
        unsupported()
    }

    fn remove_dir(&self, _path: &str) -> io::Result<()> {
        unsupported()
    }

    fn remove_dir_all<B: Allocator>(&self, _alloc: B, _path: &str) -> io::Result<()> {
        unsupported()
    }
}

impl Read for Source {
    fn read(&mut self, buf: &mut [u8]) -> io::Result<usize> {
        self.reads = self.reads.saturating_add(1);
        if self.reads == self.failing {
            return Err(ErrorKind::Other.into());
        }
        let rest = CONTENT.get(self.at..).unwrap_or(&[]);
        let n = buf.len().min(rest.len()).min(3);
        buf[..n].copy_from_slice(&rest[..n]);
        self.at = self.at.saturating_add(n);
        Ok(n)
    }
}

impl Write for Source {
    fn write(&mut self, _buf: &[u8]) -> io::Result<usize> {
        unsupported()
    }

    fn flush(&mut self) -> io::Result<()> {
        unsupported()
    }
}

impl Seek for Source {
    fn seek(&mut self, _to: SeekFrom) -> io::Result<u64> {
        unsupported()
    }
}

impl OpenFile for Source {
    fn metadata(&self) -> io::Result<Metadata> {
        unsupported()
    }

    fn set_len(&self, _size: u64) -> io::Result<()> {
        unsupported()
    }

    fn sync_all(&self) -> io::Result<()> {
        unsupported()
    }

    fn sync_data(&self) -> io::Result<()> {
        unsupported()
    }
}

/// The adapter over a system with one file. It counts the opens and the faults too, and its type says that these are
/// the adapter's own counts, which no call tells.
#[derive(Drop)]
struct CountedFiles {
    files: RealFiles<OneFile>,
    opens: u64,
    faults: u64,
    ghost same_opens: { ⟦<RealFiles<OneFile> as Files>⟧.opens files ≡ opens },
    ghost same_faults: { ⟦<RealFiles<OneFile> as Files>⟧.faults files ≡ faults },
}

impl Files for CountedFiles {
    ghost told = { λ _ _. None };

    ghost may_open = { λ _ _. true };

    ghost is_open = { λ c. ⟦<RealFiles<OneFile> as Files>⟧.is_open c.files };

    ghost left = { λ _. None };

    ghost taken = { λ c. ⟦<RealFiles<OneFile> as Files>⟧.taken c.files };

    ghost opens = { λ c. ⟦<RealFiles<OneFile> as Files>⟧.opens c.files };

    ghost faults = { λ c. ⟦<RealFiles<OneFile> as Files>⟧.faults c.files };

    fn open(&mut self, alloc: Global, name: &str) -> Result<(), OpenFault> {
        let opened = self.files.open(alloc, name);
        self.opens = self.opens.saturating_add(1);
        if let Err(OpenFault::Failed) = opened {
            self.faults = self.faults.saturating_add(1);
        }
        opened
    }

    fn read(&mut self, into: &mut [u8]) -> Result<usize, Failed> {
        let read = self.files.read(into);
        if read.is_err() {
            self.faults = self.faults.saturating_add(1);
        }
        read
    }
}

fn one_file(name: usize, failing: u64) -> CountedFiles {
    refusing(name, None, failing)
}

fn refusing(name: usize, refusal: Option<ErrorKind>, failing: u64) -> CountedFiles {
    CountedFiles {
        files: RealFiles::new(OneFile {
            name,
            refusal,
            failing,
        }),
        opens: 0,
        faults: 0,
    }
}

/// Whether the file of a name is read as its content, up to this limit.
fn is_read(alloc: Global, files: &mut CountedFiles, name: &str, limit: u32) -> bool {
    match read_all(alloc, files, name, limit as usize) {
        Ok(bytes) => bytes.as_slice() == CONTENT,
        Err(_) => false,
    }
}

/// Whether the file of a name is refused with this fault.
fn is_refused(
    alloc: Global,
    files: &mut CountedFiles,
    name: &str,
    limit: u32,
    fault: ReadAllFault,
) -> bool {
    match read_all(alloc, files, name, limit as usize) {
        Ok(_) => false,
        Err(found) => found == fault,
    }
}

/// Whether a system that is made so refuses its file with this fault, and so many faults are counted.
fn counts(
    alloc: Global,
    refusal: Option<ErrorKind>,
    failing: u64,
    fault: ReadAllFault,
    faults: u64,
) -> bool {
    let mut files = refusing(0, refusal, failing);
    is_refused(alloc, &mut files, "game", 100, fault) && files.faults == faults && files.opens == 1
}

// The seven bytes come in three reads, and the fourth meets the end.
#[test]
fn a_read_that_fails_is_no_end_of_the_file(rt: HostRuntime) {
    let alloc = rt.alloc();
    for failing in 1..5u64 {
        assert!(rt; counts(alloc, None, failing, ReadAllFault::ReadFault, 1));
    }
    let mut files = one_file(0, 5);
    assert!(rt; is_read(alloc, &mut files, "game", 100) && files.faults == 0);
}

#[test]
fn pieces_come_in_order_up_to_the_limit(rt: HostRuntime) {
    let alloc = rt.alloc();
    let mut files = one_file(0, 0);
    assert!(rt;
        is_read(alloc, &mut files, "game", 7)
            && is_refused(alloc, &mut files, "game", 6, ReadAllFault::TooLong)
            && is_read(alloc, &mut files, "game", 7)
    );
}

/// Whether the file is opened by the name at this place, and by no other.
fn is_opened_by(alloc: Global, place: usize, name: &str) -> bool {
    let mut files = one_file(place, 0);
    is_read(alloc, &mut files, name, 7)
        && is_refused(alloc, &mut files, "a", 7, ReadAllFault::ReadFault)
}

#[test]
fn a_name_is_opened_as_it_is(rt: HostRuntime) {
    for (place, name) in NAMES.iter().enumerate() {
        assert!(rt; is_opened_by(rt.alloc(), place, name));
    }
}

#[test]
fn a_file_is_refused_for_want_of_memory_alone(rt: HostRuntime) {
    let alloc = rt.alloc();
    assert!(rt;
        counts(
            alloc,
            Some(ErrorKind::OutOfMemory),
            0,
            ReadAllFault::NoMemory,
            0
        )
    );
    for kind in [
        ErrorKind::NotFound,
        ErrorKind::PermissionDenied,
        ErrorKind::Interrupted,
    ] {
        assert!(rt; counts(alloc, Some(kind), 0, ReadAllFault::ReadFault, 1));
    }
}

/// A stream that takes so many bytes at once, and fails at a call.
#[derive(Drop)]
struct Drain {
    taken: Vec<u8>,
    most: usize,
    writes: u64,
    failing: u64,
}

impl Drain {
    fn new(alloc: Global, most: usize, failing: u64) -> Drain {
        Drain {
            taken: Vec::new(alloc),
            most,
            writes: 0,
            failing,
        }
    }
}

impl Write for Drain {
    fn write(&mut self, buf: &[u8]) -> io::Result<usize> {
        self.writes = self.writes.saturating_add(1);
        if self.writes == self.failing {
            return Err(ErrorKind::Other.into());
        }
        let n = buf.len().min(self.most);
        self.taken.extend_from_slice(&buf[..n])?;
        Ok(n)
    }

    fn flush(&mut self) -> io::Result<()> {
        Ok(())
    }
}

/// Writes a text by the adapter over a stream.
fn write_text(drain: &mut Drain) -> Result<(), WriteFault> {
    write_all(&mut RealSink::new(drain), b"text")
}

/// The adapter over a stream. It counts the faults too, as `CountedFiles` does, and keeps how long the piece was of the
/// last one.
#[derive(Drop)]
struct CountedSink {
    sink: RealSink<Drain>,
    faults: u64,
    failed_length: usize,
    ghost same_faults: { ⟦<RealSink<Drain> as Sink>⟧.faults sink ≡ faults },
    ghost same_failed: { ⟦<RealSink<Drain> as Sink>⟧.failed_length sink ≡ failed_length },
}

impl Sink for CountedSink {
    ghost written = { λ _. None };

    ghost faults = { λ c. ⟦<RealSink<Drain> as Sink>⟧.faults c.sink };

    ghost failed_length = { λ c. ⟦<RealSink<Drain> as Sink>⟧.failed_length c.sink };

    fn write(&mut self, piece: &[u8]) -> Result<usize, Failed> {
        let written = self.sink.write(piece);
        if written.is_err() {
            self.faults = self.faults.saturating_add(1);
            self.failed_length = piece.len();
        }
        written
    }
}

/// Writes the text by that adapter, and says how many faults were counted, and how long the piece was of the last one.
fn write_counted(drain: Drain) -> (Result<(), WriteFault>, u64, usize) {
    let mut sink = CountedSink {
        sink: RealSink::new(drain),
        faults: 0,
        failed_length: 0,
    };
    let result = write_all(&mut sink, b"text");
    (result, sink.faults, sink.failed_length)
}

/// A stream by how many bytes it takes at once and at which call it fails, and what becomes of a text in it: the
/// result, what is taken, the count of faults, and how much of the text was still to come at the last one.
type StreamCalls = (usize, u64, Result<(), WriteFault>, &'static str, u64, usize);

static STREAMS: [StreamCalls; 7] = [
    (100, 0, Ok(()), "text", 0, 0),
    (1, 0, Ok(()), "text", 0, 0),
    (3, 0, Ok(()), "text", 0, 0),
    (1, 3, Err(WriteFault), "te", 1, 2),
    (3, 2, Err(WriteFault), "tex", 1, 1),
    (100, 1, Err(WriteFault), "", 1, 4),
    (0, 0, Err(WriteFault), "", 1, 4),
];

fn takes_as_told(alloc: Global, stream: &StreamCalls) -> bool {
    let (most, failing, result, taken, faults, to_come) = *stream;
    let mut seen = Drain::new(alloc, most, failing);
    write_text(&mut seen) == result
        && seen.taken.as_slice() == taken.as_bytes()
        && write_counted(Drain::new(alloc, most, failing)) == (result, faults, to_come)
}

#[test]
fn what_a_stream_leaves_is_written_again(rt: HostRuntime) {
    for stream in &STREAMS {
        assert!(rt; takes_as_told(rt.alloc(), stream));
    }
}
