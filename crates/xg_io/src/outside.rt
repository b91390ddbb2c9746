//! The traits of the outside.
ghost use Rattle.std.specs.Prelude.{◌≡◌, ℕ, ◌+◌, ◌<◌, ◌≤◌, ◌↔◌, Bool, Option, Some, List, [], length, take, is_ok};
ghost use Rattle.std.specs.Prelude.{IsTrue, IfOk, IfSome, OnOk, OnErr};
ghost use Rattle.std.specs.Io.KnownBytes.{append_known, Consumes};
ghost use Rattle.def_outside.specs.Calls.{past_count};
ghost use Rattle.def_outside.specs.Cause.{HasCause, next_count};
ghost use Rattle.xg_io.specs.Cause.{OpenHasCause};

use std::alloc::Global;
use std::marker::Sync;
use std::sync::Wait;
use std::thread::Threads;
use thiserror::Error;

/// A call to the outside failed. Nothing more is known of why.
#[derive(Clone, Copy)]
pub struct Failed;

/// Why a file isn't open.
#[derive(Clone, Copy, Debug, Error)]
pub enum OpenFault {
    /// The name can't be opened.
    #[error("the file cannot be opened")]
    Failed,
    /// Memory ran out.
    #[error("want of memory")]
    NoMemory,
}

/// Files that are opened by name, one at a time, and read from front to back.
pub trait Files {
    /// The bytes of a name, where they are told. No call changes them.
    ghost told: { Self → List ℕ → Option (List ℕ) };

    /// Which names may be opened. No call changes this.
    ghost may_open: { Self → List ℕ → Bool };

    /// Whether a file is open.
    ghost is_open: { Self → Bool };

    /// What is left of the open file, where it is told.
    ghost left: { Self → Option (List ℕ) };

    /// How many bytes were read since the last `open`.
    ghost taken: { Self → ℕ };

    /// How many calls of `open` there were, up to the last value of a `u64`.
    ghost opens: { Self → ℕ };

    /// How many calls failed, up to the last value of a `u64`.
    ghost faults: { Self → ℕ };

    /// Opens the file of a name, in place of the one that is open.
    fn open(&mut self, alloc: Global, name: &str) -> Result<(), OpenFault>
        requires { IsTrue (may_open self.old name.now) }
        ensures same_told { told self.new ≡ told self.old }
        ensures same_names { may_open self.new ≡ may_open self.old }
        ensures opened { is_open self.new ≡ is_ok result }
        ensures nothing_taken { taken self.new ≡ 0 }
        ensures whole_left { OnOk result (IfSome (told self.old name.now) (λ bytes. left self.new ≡ Some bytes)) }
        ensures one_open { opens self.new ≡ next_count (opens self.old) }
        ensures cause { OpenHasCause (faults self.old) (faults self.new) result };

    /// Reads the next bytes of the open file into the front of `into`, and says how many. None are left at 0.
    fn read(&mut self, into: &mut [u8]) -> Result<usize, Failed>
        requires file { IsTrue (is_open self.old) }
        requires room { 0 < length into.old }
        requires countable { taken self.old < past_count }
        ensures same_told { told self.new ≡ told self.old }
        ensures same_names { may_open self.new ≡ may_open self.old }
        ensures same_open { is_open self.new ≡ is_open self.old }
        ensures count { IfOk result (λ n. n ≤ length into.old) }
        ensures bytes { IfOk result (λ n. Consumes (left self.old) (left self.new) (take n into.new)) }
        ensures end { IfOk result (λ n. IfSome (left self.old) (λ rest. (n ≡ 0) ↔ (rest ≡ []))) }
        ensures counted { IfOk result (λ n. taken self.new ≡ taken self.old + n) }
        ensures same_left { OnErr result (left self.new ≡ left self.old) }
        ensures same_taken { OnErr result (taken self.new ≡ taken self.old) }
        ensures same_opens { opens self.new ≡ opens self.old }
        ensures cause { HasCause (faults self.old) (faults self.new) result };
}

/// A place that bytes are written to, one piece after the other.
pub trait Sink {
    /// All the bytes that it took, where it tells them.
    ghost written: { Self → Option (List ℕ) };

    /// How many calls failed, up to the last value of a `u64`.
    ghost faults: { Self → ℕ };

    /// How long the piece was of the last call that failed.
    ghost failed_length: { Self → ℕ };

    /// Takes bytes from the front of the piece, at least one, and says how many. A sink that takes nothing has failed.
    fn write(&mut self, piece: &[u8]) -> Result<usize, Failed>
        requires { 0 < length piece.now }
        ensures some_taken { IfOk result (λ n. 0 < n) }
        ensures count { IfOk result (λ n. n ≤ length piece.now) }
        ensures appended { IfOk result (λ n. written self.new ≡ append_known (written self.old) (take n piece.now)) }
        ensures same_written { OnErr result (written self.new ≡ written self.old) }
        ensures failed_piece { OnErr result (failed_length self.new ≡ length piece.now) }
        ensures same_failed { OnOk result (failed_length self.new ≡ failed_length self.old) }
        ensures cause { HasCause (faults self.old) (faults self.new) result };
}

/// Where a worker may be held up: tests use it to order the workers' steps. Both calls may wait.
pub trait Gate: Sync {
    /// A worker calls this after it drew a job and before it makes the job's packet.
    fn pass<Rt: Threads + Wait + Sync>(&self, rt: &Rt, worker: u32, job: u32);

    /// A worker calls this while it holds the lock of a stripe.
    fn within<Rt: Threads + Wait + Sync>(&self, rt: &Rt, worker: u32, stripe: u32);
}

/// The gate that holds nobody up.
#[derive(Clone, Copy)]
pub struct OpenGate;

impl Gate for OpenGate {
    fn pass<Rt: Threads + Wait + Sync>(&self, _rt: &Rt, _worker: u32, _job: u32) {}

    fn within<Rt: Threads + Wait + Sync>(&self, _rt: &Rt, _worker: u32, _stripe: u32) {}
}
