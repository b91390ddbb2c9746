//! Which calls of an object in memory fail.
ghost use Rattle.std.specs.Prelude.{◌≡◌, ◌↔◌, IfOk, IsErr};
ghost use Rattle.def_outside.specs.Cause.{HasCause, RoseByOne, next_count};

use std::alloc::{AllocError, Global};
use xg_io::Failed;

/// Counts the calls of an object, lets those fail whose numbers are listed, and counts the faults.
#[derive(Drop)]
pub struct Schedule {
    failing: Vec<u64>,
    calls: u64,
    faults: u64,
}

impl Schedule {
    ghost use Rattle.xg_memory.specs.Schedule.{failing_calls, calls_made, faults_so_far, FailsNext};

    /// Calls are numbered from 1, and those listed in `failing` fail.
    pub fn new(alloc: Global, failing: &[u64]) -> Result<Schedule, AllocError>
        ensures failing { IfOk result (λ s. failing_calls s ≡ failing.now) }
        ensures no_calls { IfOk result (λ s. calls_made s ≡ 0) }
        ensures no_faults { IfOk result (λ s. faults_so_far s ≡ 0) }
    {
        Ok(Schedule {
            failing: Vec::from_slice(alloc, failing)?,
            calls: 0,
            faults: 0,
        })
    }

    /// Counts one call, which fails if its number is listed.
    pub fn call(&mut self) -> Result<(), Failed>
        ensures listed { IsErr result ↔ FailsNext self.old }
        ensures counted { calls_made self.new ≡ next_count (calls_made self.old) }
        ensures same_failing { failing_calls self.new ≡ failing_calls self.old }
        ensures cause { HasCause (faults_so_far self.old) (faults_so_far self.new) result }
    {
        self.calls = self.calls.saturating_add(1);
        if self.failing.contains(&self.calls) {
            return Err(self.blame());
        }
        Ok(())
    }

    /// Counts a fault.
    pub fn blame(&mut self) -> Failed
        ensures same_calls { calls_made self.new ≡ calls_made self.old }
        ensures same_failing { failing_calls self.new ≡ failing_calls self.old }
        ensures cause { RoseByOne (faults_so_far self.old) (faults_so_far self.new) }
    {
        self.faults = self.faults.saturating_add(1);
        Failed
    }
}
