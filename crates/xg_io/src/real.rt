//! The real outside: std's files and streams. They tell nothing of what files hold and terminals take.
ghost use Rattle.std.specs.Prelude.{◌≡◌, ◌+◌, ◌<◌, ◌≤◌, length, Option, None, true, false, is_some, is_ok, IsTrue};
ghost use Rattle.std.specs.Prelude.{IfOk, IfSome, OnErr, OnOk};
ghost use Rattle.std.specs.Io.KnownBytes.{ReadConsumes, WriteAppends};
ghost use Rattle.def_outside.specs.Calls.{past_count};
ghost use Rattle.def_outside.specs.Cause.{HasCause, next_count};
ghost use Rattle.xg_io.specs.Cause.{OpenHasCause};

use crate::{Failed, Files, OpenFault, Sink};
use std::alloc::Global;
use std::io::{ErrorKind, Read, Write};
use std::{fs, rt};

/// The files of the system, by the paths that the names are.
#[derive(Drop)]
pub struct RealFiles<R: rt::Files + Drop> {
    system: R,
    file: Option<R::File>,
    taken: u64,
    opens: u64,
    faults: u64,
}

impl<R: rt::Files + Drop> RealFiles<R> {
    /// No file is open.
    pub fn new(system: R) -> RealFiles<R>
        ensures closed { ⟦<RealFiles<R> as Files>⟧.is_open result ≡ false }
        ensures nothing_taken { ⟦<RealFiles<R> as Files>⟧.taken result ≡ 0 }
        ensures no_opens { ⟦<RealFiles<R> as Files>⟧.opens result ≡ 0 }
        ensures no_faults { ⟦<RealFiles<R> as Files>⟧.faults result ≡ 0 }
    {
        RealFiles {
            system,
            file: None,
            taken: 0,
            faults: 0,
            opens: 0,
        }
    }
}

impl<R: rt::Files + Drop> Files for RealFiles<R> {
    ghost told = { λ _ _. None };

    ghost may_open = { λ _ _. true };

    ghost is_open = { λ r. is_some r.file };

    ghost left = { λ _. None };

    ghost taken = { λ r. r.taken };

    ghost opens = { λ r. r.opens };

    ghost faults = { λ r. r.faults };

    fn open(&mut self, _alloc: Global, name: &str) -> Result<(), OpenFault>
        ensures opened { is_some self.new.file ≡ is_ok result }
        ensures nothing_taken { self.new.taken ≡ 0 }
        ensures one_open { self.new.opens ≡ next_count self.old.opens }
        ensures cause { OpenHasCause self.old.faults self.new.faults result }
    {
        self.file = None;
        self.taken = 0;
        self.opens = self.opens.saturating_add(1);
        match fs::open(&self.system, name) {
            Ok(file) => {
                self.file = Some(file);
                Ok(())
            }
            Err(error) => {
                if error.kind() == ErrorKind::OutOfMemory {
                    return Err(OpenFault::NoMemory);
                }
                self.faults = self.faults.saturating_add(1);
                Err(OpenFault::Failed)
            }
        }
    }

    fn read(&mut self, into: &mut [u8]) -> Result<usize, Failed>
        requires file { IsTrue (is_some self.old.file) }
        requires room { 0 < length into.old }
        requires countable { self.old.taken < past_count }
        ensures same_open { is_some self.new.file ≡ is_some self.old.file }
        ensures count { IfOk result (λ n. n ≤ length into.old) }
        ensures passed { IfSome self.old.file (λ before. IfSome self.new.file (λ now.
            ReadConsumes (R.File.remaining before) (R.File.remaining now) result into.new)) }
        ensures counted { IfOk result (λ n. self.new.taken ≡ self.old.taken + n) }
        ensures same_taken { OnErr result (self.new.taken ≡ self.old.taken) }
        ensures same_opens { self.new.opens ≡ self.old.opens }
        ensures cause { HasCause self.old.faults self.new.faults result }
    {
        let Some(file) = &mut self.file else {
            unreachable!()
        };
        match file.read(into) {
            Ok(n) => {
                self.taken += n as u64;
                Ok(n)
            }
            Err(_) => {
                self.faults = self.faults.saturating_add(1);
                Err(Failed)
            }
        }
    }
}

/// A stream of the system, or any other writer.
#[derive(Drop)]
pub struct RealSink<W: Write + Drop> {
    stream: W,
    faults: u64,
    failed_length: usize,
}

impl<W: Write + Drop> RealSink<W> {
    /// Nothing is written yet.
    pub fn new(stream: W) -> RealSink<W>
        ensures no_faults { ⟦<RealSink<W> as Sink>⟧.faults result ≡ 0 }
        ensures no_piece { ⟦<RealSink<W> as Sink>⟧.failed_length result ≡ 0 }
    {
        RealSink {
            stream,
            faults: 0,
            failed_length: 0,
        }
    }
}

impl<W: Write + Drop> Sink for RealSink<W> {
    ghost written = { λ _. None };

    ghost faults = { λ s. s.faults };

    ghost failed_length = { λ s. s.failed_length };

    fn write(&mut self, piece: &[u8]) -> Result<usize, Failed>
        requires { 0 < length piece.now }
        ensures some_taken { IfOk result (λ n. 0 < n) }
        ensures count { IfOk result (λ n. n ≤ length piece.now) }
        ensures passed { WriteAppends (W.contents self.old.stream) (W.contents self.new.stream) result piece.now }
        ensures failed_piece { OnErr result (self.new.failed_length ≡ length piece.now) }
        ensures same_failed { OnOk result (self.new.failed_length ≡ self.old.failed_length) }
        ensures cause { HasCause self.old.faults self.new.faults result }
    {
        match self.stream.write(piece) {
            Ok(n) if n > 0 => Ok(n),
            _ => {
                self.faults = self.faults.saturating_add(1);
                self.failed_length = piece.len();
                Err(Failed)
            }
        }
    }
}
