//! A sink that takes everything.
ghost use Rattle.std.specs.Prelude.{◌≡◌, ◌+◌, ◌-◌, ◌^◌, ◌<◌, ◌≤◌, None, length, min, IfOk, OnErr, IsOk};
ghost use Rattle.def_outside.specs.Cause.{HasCause};

use xg_io::{Failed, Sink};

/// A sink that takes everything and never fails, for tests. It keeps the number of bytes alone, and tells nothing of
/// what they are.
#[derive(Drop)]
pub struct SureSink {
    count: u64,
}

impl SureSink {
    ghost use Rattle.xg_memory.specs.SureSink.{count_of_sink};

    /// A sink that took nothing yet.
    pub fn new() -> SureSink
        ensures { count_of_sink result ≡ 0 }
    {
        SureSink { count: 0 }
    }

    /// How many bytes it took. The number stays at the greatest `u64`.
    pub fn count(&self) -> u64
        ensures { result ≡ count_of_sink self.now }
    {
        self.count
    }
}

impl Sink for SureSink {
    ghost use Rattle.xg_memory.specs.SureSink.{count_of_sink};

    ghost written = { λ _. None };

    // none of its calls fails
    ghost faults = { λ _. 0 };

    ghost failed_length = { λ _. 0 };

    fn write(&mut self, piece: &[u8]) -> Result<usize, Failed>
        requires { 0 < length piece.now }
        ensures all_taken { IfOk result (λ n. n ≡ length piece.now) }
        ensures counted { count_of_sink self.new ≡ min (count_of_sink self.old + length piece.now) (2 ^ 64 - 1) }
        ensures some_taken { IfOk result (λ n. 0 < n) }
        ensures count { IfOk result (λ n. n ≤ length piece.now) }
        ensures failed_piece { OnErr result (0 ≡ length piece.now) }
        ensures cause { HasCause 0 0 result }
        ensures sure { IsOk result }
    {
        self.count = self.count.saturating_add(piece.len() as u64);
        Ok(piece.len())
    }
}
