//! Files in memory that never fail.
ghost use Rattle.std.specs.Prelude.{◌≡◌, ◌≢◌, ℕ, ◌+◌, ◌<◌, ◌≤◌, ◌↔◌, true, List, length, take, min, Option, Some, None};
ghost use Rattle.std.specs.Prelude.{is_some, is_ok, IsOk, IsTrue, [], IfOk, IfSome, OnOk, OnErr};
ghost use Rattle.std.specs.Io.KnownBytes.{Consumes};
ghost use Rattle.def_outside.specs.Calls.{past_count};
ghost use Rattle.def_outside.specs.Cause.{HasCause, next_count};
ghost use Rattle.xg_io.specs.Cause.{OpenHasCause};

use crate::stored::{Stored, bytes_at, copy_front, from_place, place_of, store};
use std::alloc::{AllocError, Global};
use xg_io::{Failed, Files, OpenFault};

/// Files in memory that never fail, for tests: a name that they don't hold opens as an empty file. They tell what is
/// left.
#[derive(Drop)]
pub struct SureFiles {
    files: Vec<Stored>,
    current: Option<usize>,
    taken: usize,
    opens: u64,
}

impl SureFiles {
    ghost use Rattle.xg_memory.specs.SureFiles.{sure_told_of, sure_current_of, sure_taken_of, sure_opens_of};
    ghost use Rattle.std.specs.Prelude.{[]};

    /// Holds no files.
    pub fn new(alloc: Global) -> Result<SureFiles, AllocError>
        ensures empty { IfOk result (λ s. (name : List ℕ) → sure_told_of s name ≡ Some []) }
        ensures closed { IfOk result (λ s. sure_current_of s ≡ None) }
        ensures nothing_taken { IfOk result (λ s. sure_taken_of s ≡ 0) }
        ensures no_opens { IfOk result (λ s. sure_opens_of s ≡ 0) }
    {
        Ok(SureFiles {
            files: Vec::new(alloc),
            current: None,
            taken: 0,
            opens: 0,
        })
    }

    /// Adds a file, in place of one with that name. No file is open afterwards.
    pub fn add(&mut self, name: &str, bytes: &[u8]) -> Result<(), AllocError>
        ensures told { OnOk result (sure_told_of self.new name.now ≡ Some bytes.now) }
        ensures others { OnOk result
            ((other : List ℕ) → other ≢ name.now → sure_told_of self.new other ≡ sure_told_of self.old other) }
        ensures closed { OnOk result (sure_current_of self.new ≡ None) }
        ensures same_taken { sure_taken_of self.new ≡ sure_taken_of self.old }
        ensures same_opens { sure_opens_of self.new ≡ sure_opens_of self.old }
        ensures same_open { OnErr result (sure_current_of self.new ≡ sure_current_of self.old) }
        ensures same_told { OnErr result ((other : List ℕ) → sure_told_of self.new other
            ≡ sure_told_of self.old other) }
    {
        store(&mut self.files, name, bytes)?;
        self.current = None;
        Ok(())
    }
}

impl Files for SureFiles {
    ghost use Rattle.xg_memory.specs.SureFiles.{sure_told_of, sure_current_of, sure_left_of, sure_taken_of, sure_opens_of};

    ghost told = { sure_told_of };

    ghost may_open = { λ _ _. true };

    ghost is_open = { λ s. is_some (sure_current_of s) };

    ghost left = { sure_left_of };

    ghost taken = { sure_taken_of };

    ghost opens = { sure_opens_of };

    // none of its calls fails
    ghost faults = { λ _. 0 };

    fn open(&mut self, _alloc: Global, name: &str) -> Result<(), OpenFault>
        ensures same_told { sure_told_of self.new ≡ sure_told_of self.old }
        ensures opened { is_some (sure_current_of self.new) ≡ is_ok result }
        ensures nothing_taken { sure_taken_of self.new ≡ 0 }
        ensures whole_left { sure_left_of self.new ≡ sure_told_of self.old name.now }
        ensures one_open { sure_opens_of self.new ≡ next_count (sure_opens_of self.old) }
        ensures cause { OpenHasCause 0 0 result }
        ensures sure { IsOk result }
    {
        let place = place_of(self.files.as_slice(), name.as_bytes());
        self.current = Some(place);
        self.taken = 0;
        self.opens = self.opens.saturating_add(1);
        Ok(())
    }

    fn read(&mut self, into: &mut [u8]) -> Result<usize, Failed>
        requires file { IsTrue (is_some (sure_current_of self.old)) }
        requires room { 0 < length into.old }
        requires countable { sure_taken_of self.old < past_count }
        ensures same_told { sure_told_of self.new ≡ sure_told_of self.old }
        ensures same_open { sure_current_of self.new ≡ sure_current_of self.old }
        ensures count { IfOk result (λ n. n ≤ length into.old) }
        ensures all_that_fits { IfOk result
            (λ n. IfSome (sure_left_of self.old) (λ rest. n ≡ min (length into.old) (length rest))) }
        ensures bytes { IfOk result (λ n. Consumes (sure_left_of self.old) (sure_left_of self.new) (take n into.new)) }
        ensures end { IfOk result (λ n. IfSome (sure_left_of self.old) (λ rest. (n ≡ 0) ↔ (rest ≡ []))) }
        ensures taken { IfOk result (λ n. sure_taken_of self.new ≡ sure_taken_of self.old + n) }
        ensures same_left { OnErr result (sure_left_of self.new ≡ sure_left_of self.old) }
        ensures same_taken { OnErr result (sure_taken_of self.new ≡ sure_taken_of self.old) }
        ensures same_opens { sure_opens_of self.new ≡ sure_opens_of self.old }
        ensures cause { HasCause 0 0 result }
        ensures sure { IsOk result }
    {
        let Some(place) = self.current else {
            unreachable!()
        };
        let bytes = bytes_at(self.files.as_slice(), place);
        let n = copy_front(from_place(bytes, self.taken), into);
        self.taken += n;
        Ok(n)
    }
}
