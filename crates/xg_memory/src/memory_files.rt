//! Files in memory.
ghost use Rattle.std.specs.Prelude.{◌≡◌, ◌≢◌, ℕ, ◌+◌, ◌-◌, ◌<◌, ◌≤◌, ◌↔◌, ◌⊎◌, true, List, length, take, min, Option};
ghost use Rattle.std.specs.Prelude.{Some, None, is_some, is_ok, IsTrue, IsErr, vec_len, [], IfOk, IfSome, OnOk, OnErr};
ghost use Rattle.std.specs.Prelude.{IsErrOf};
ghost use Rattle.std.specs.Option.{ForSome};
ghost use Rattle.std.specs.Io.KnownBytes.{Consumes};
ghost use Rattle.def_outside.specs.Calls.{past_count};
ghost use Rattle.def_outside.specs.Cause.{HasCause, next_count};
ghost use Rattle.xg_io.specs.Cause.{OpenHasCause};
ghost use Rattle.xg_memory.specs.Schedule.{failing_calls, calls_made, FailsNext};

use crate::schedule::Schedule;
use crate::stored::{Stored, bytes_of_file, copy_front, find_file, from_place, store};
use std::alloc::{AllocError, Global};
use xg_io::{Failed, Files, OpenFault};

/// Files in memory, for tests. Their calls of `open` and `read` are numbered together from 1, and fail where they are
/// told to; a name that they don't hold fails too. They tell what is left.
#[derive(Drop)]
pub struct MemFiles {
    files: Vec<Stored>,
    current: Option<usize>,
    taken: usize,
    opens: u64,
    schedule: Schedule,
    ghost in_range: { ForSome current (λ place. place < vec_len files) },
}

impl MemFiles {
    ghost use Rattle.xg_memory.specs.MemFiles.{told_of, current_of, left_of, taken_of, opens_of, schedule_of, faults_of};

    /// Holds no files. The calls whose numbers are listed in `failing` fail.
    pub fn new(alloc: Global, failing: &[u64]) -> Result<MemFiles, AllocError>
        ensures empty { IfOk result (λ m. (name : List ℕ) → told_of m name ≡ None) }
        ensures closed { IfOk result (λ m. current_of m ≡ None) }
        ensures nothing_taken { IfOk result (λ m. taken_of m ≡ 0) }
        ensures no_opens { IfOk result (λ m. opens_of m ≡ 0) }
        ensures failing { IfOk result (λ m. failing_calls (schedule_of m) ≡ failing.now) }
        ensures no_calls { IfOk result (λ m. calls_made (schedule_of m) ≡ 0) }
        ensures no_faults { IfOk result (λ m. faults_of m ≡ 0) }
    {
        Ok(MemFiles {
            files: Vec::new(alloc),
            current: None,
            taken: 0,
            opens: 0,
            schedule: Schedule::new(alloc, failing)?,
        })
    }

    /// Adds a file, in place of one with that name. No file is open afterwards.
    pub fn add(&mut self, name: &str, bytes: &[u8]) -> Result<(), AllocError>
        ensures told { OnOk result (told_of self.new name.now ≡ Some bytes.now) }
        ensures others { OnOk result
            ((other : List ℕ) → other ≢ name.now → told_of self.new other ≡ told_of self.old other) }
        ensures closed { OnOk result (current_of self.new ≡ None) }
        ensures same_taken { taken_of self.new ≡ taken_of self.old }
        ensures same_opens { opens_of self.new ≡ opens_of self.old }
        ensures same_schedule { schedule_of self.new ≡ schedule_of self.old }
        ensures same_open { OnErr result (current_of self.new ≡ current_of self.old) }
        ensures same_told { OnErr result ((other : List ℕ) → told_of self.new other ≡ told_of self.old other) }
    {
        store(&mut self.files, name, bytes)?;
        self.current = None;
        Ok(())
    }
}

impl Files for MemFiles {
    ghost use Rattle.xg_memory.specs.MemFiles.{told_of, current_of, left_of, taken_of, opens_of, schedule_of, faults_of};

    ghost told = { told_of };

    ghost may_open = { λ _ _. true };

    ghost is_open = { λ m. is_some (current_of m) };

    ghost left = { left_of };

    ghost taken = { taken_of };

    ghost opens = { opens_of };

    ghost faults = { faults_of };

    fn open(&mut self, _alloc: Global, name: &str) -> Result<(), OpenFault>
        ensures same_told { told_of self.new ≡ told_of self.old }
        ensures opened { is_some (current_of self.new) ≡ is_ok result }
        ensures nothing_taken { taken_of self.new ≡ 0 }
        ensures whole_left { OnOk result (left_of self.new ≡ told_of self.old name.now) }
        ensures one_open { opens_of self.new ≡ next_count (opens_of self.old) }
        ensures cause { OpenHasCause (faults_of self.old) (faults_of self.new) result }
        ensures fails { IsErrOf result OpenFault.Failed
            ↔ (FailsNext (schedule_of self.old) ⊎ (told_of self.old name.now ≡ None)) }
        ensures has_memory { IsErrOf result OpenFault.NoMemory → ⊥ }
        ensures counted { calls_made (schedule_of self.new) ≡ next_count (calls_made (schedule_of self.old)) }
        ensures same_failing { failing_calls (schedule_of self.new) ≡ failing_calls (schedule_of self.old) }
    {
        self.current = None;
        self.taken = 0;
        self.opens = self.opens.saturating_add(1);
        let Ok(()) = self.schedule.call() else {
            return Err(OpenFault::Failed);
        };
        self.current = find_file(self.files.as_slice(), name.as_bytes());
        if self.current.is_none() {
            let Failed = self.schedule.blame();
            return Err(OpenFault::Failed);
        }
        Ok(())
    }

    fn read(&mut self, into: &mut [u8]) -> Result<usize, Failed>
        requires file { IsTrue (is_some (current_of self.old)) }
        requires room { 0 < length into.old }
        requires countable { taken_of self.old < past_count }
        ensures same_told { told_of self.new ≡ told_of self.old }
        ensures same_open { current_of self.new ≡ current_of self.old }
        ensures count { IfOk result (λ n. n ≤ length into.old) }
        ensures all_that_fits { IfOk result
            (λ n. IfSome (left_of self.old) (λ rest. n ≡ min (length into.old) (length rest))) }
        ensures bytes { IfOk result (λ n. Consumes (left_of self.old) (left_of self.new) (take n into.new)) }
        ensures end { IfOk result (λ n. IfSome (left_of self.old) (λ rest. (n ≡ 0) ↔ (rest ≡ []))) }
        ensures taken { IfOk result (λ n. taken_of self.new ≡ taken_of self.old + n) }
        ensures same_left { OnErr result (left_of self.new ≡ left_of self.old) }
        ensures same_taken { OnErr result (taken_of self.new ≡ taken_of self.old) }
        ensures same_opens { opens_of self.new ≡ opens_of self.old }
        ensures cause { HasCause (faults_of self.old) (faults_of self.new) result }
        ensures fails { IsErr result ↔ FailsNext (schedule_of self.old) }
        ensures counted { calls_made (schedule_of self.new) ≡ next_count (calls_made (schedule_of self.old)) }
        ensures same_failing { failing_calls (schedule_of self.new) ≡ failing_calls (schedule_of self.old) }
    {
        self.schedule.call()?;
        let Some(place) = self.current else {
            unreachable!()
        };
        let bytes = bytes_of_file(self.files.as_slice(), place);
        let n = copy_front(from_place(bytes, self.taken), into);
        self.taken += n;
        Ok(n)
    }
}
