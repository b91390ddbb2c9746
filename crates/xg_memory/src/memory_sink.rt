//! A sink in memory.
ghost use Rattle.std.specs.Prelude.{◌≡◌, ◌-◌, ◌<◌, ◌≤◌, ◌↔◌, ◌⊎◌, [], Some, length, min, take, vec_len, vec_capacity};
ghost use Rattle.std.specs.Prelude.{IfOk, OnOk, OnErr, IsErr};
ghost use Rattle.std.specs.Io.KnownBytes.{append_known};
ghost use Rattle.def_outside.specs.Cause.{HasCause, next_count};
ghost use Rattle.xg_memory.specs.Schedule.{failing_calls, calls_made, FailsNext};

use crate::schedule::Schedule;
use std::alloc::{AllocError, Global};
use xg_io::{Failed, Sink};

/// A sink in memory, for tests. Its writes are numbered from 1, and those listed fail; a write fails too where the
/// room is full, and a piece larger than the room is taken in part. It tells what is written.
#[derive(Drop)]
pub struct MemSink {
    bytes: Vec<u8>,
    capacity: usize,
    schedule: Schedule,
    failed_length: usize,
    ghost within: { vec_len bytes ≤ capacity },
    ghost reserved: { capacity ≤ vec_capacity bytes },
}

impl MemSink {
    ghost use Rattle.xg_memory.specs.MemSink.{bytes_of_sink, room_of, schedule_of_sink, faults_of_sink, failed_length_of};

    /// Room for `capacity` bytes. The writes whose numbers are listed in `failing` fail.
    pub fn new(alloc: Global, capacity: usize, failing: &[u64]) -> Result<MemSink, AllocError>
        ensures empty { IfOk result (λ m. bytes_of_sink m ≡ []) }
        ensures room { IfOk result (λ m. room_of m ≡ capacity) }
        ensures failing { IfOk result (λ m. failing_calls (schedule_of_sink m) ≡ failing.now) }
        ensures no_calls { IfOk result (λ m. calls_made (schedule_of_sink m) ≡ 0) }
        ensures no_faults { IfOk result (λ m. faults_of_sink m ≡ 0) }
    {
        Ok(MemSink {
            bytes: Vec::with_capacity(alloc, capacity)?,
            capacity,
            schedule: Schedule::new(alloc, failing)?,
            failed_length: 0,
        })
    }

    /// What is written.
    pub fn bytes(&self) -> &[u8]
        ensures { result.now ≡ bytes_of_sink self.now }
    {
        self.bytes.as_slice()
    }
}

impl Sink for MemSink {
    ghost use Rattle.xg_memory.specs.MemSink.{bytes_of_sink, room_of, schedule_of_sink, faults_of_sink, failed_length_of};

    ghost written = { λ m. Some (bytes_of_sink m) };

    ghost faults = { faults_of_sink };

    ghost failed_length = { failed_length_of };

    fn write(&mut self, piece: &[u8]) -> Result<usize, Failed>
        requires { 0 < length piece.now }
        ensures taken { IfOk result (λ n. n ≡ min (length piece.now) (room_of self.old)) }
        ensures some_taken { IfOk result (λ n. 0 < n) }
        ensures count { IfOk result (λ n. n ≤ length piece.now) }
        ensures appended { IfOk result
            (λ n. Some (bytes_of_sink self.new) ≡ append_known (Some (bytes_of_sink self.old)) (take n piece.now)) }
        ensures same_written { OnErr result (Some (bytes_of_sink self.new) ≡ Some (bytes_of_sink self.old)) }
        ensures failed_piece { OnErr result (failed_length_of self.new ≡ length piece.now) }
        ensures same_failed { OnOk result (failed_length_of self.new ≡ failed_length_of self.old) }
        ensures cause { HasCause (faults_of_sink self.old) (faults_of_sink self.new) result }
        ensures fails { IsErr result ↔ (FailsNext (schedule_of_sink self.old) ⊎ (room_of self.old ≡ 0)) }
        ensures counted { calls_made (schedule_of_sink self.new) ≡ next_count (calls_made (schedule_of_sink self.old)) }
        ensures same_failing { failing_calls (schedule_of_sink self.new) ≡ failing_calls (schedule_of_sink self.old) }
    {
        let Ok(()) = self.schedule.call() else {
            self.failed_length = piece.len();
            return Err(Failed);
        };
        let n = piece.len().min(self.capacity - self.bytes.len());
        if n == 0 {
            self.failed_length = piece.len();
            return Err(self.schedule.blame());
        }
        let Ok(()) = self.bytes.extend_from_slice(&piece[..n]) else {
            unreachable!()
        };
        Ok(n)
    }
}
