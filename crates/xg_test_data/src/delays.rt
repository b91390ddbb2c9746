//! A gate that delays.
use std::marker::Sync;
use std::sync::Wait;
use std::sync::atomic::{AtomicU64, Ordering};
use std::thread;
use std::thread::Threads;
use xg_io::Gate;

/// Delays each call by up to 15 turns, each by another number than the one before.
#[derive(Drop)]
pub struct Delays {
    state: AtomicU64,
}

impl Delays {
    /// The delays that this seed leads to.
    pub fn new(seed: u64) -> Delays {
        Delays {
            state: AtomicU64::new(seed),
        }
    }

    // The state grows by an odd number near 2^64 over the golden ratio, so its high bits jump.
    fn delay(&self) {
        let turns = self
            .state
            .fetch_add(0x9E37_79B9_7F4A_7C15, Ordering::SeqCst)
            >> 60;
        for _ in 0..turns {
            thread::yield_now();
        }
    }
}

impl Gate for Delays {
    fn pass<Rt: Threads + Wait + Sync>(&self, _rt: &Rt, _worker: u32, _job: u32) {
        self.delay();
    }

    fn within<Rt: Threads + Wait + Sync>(&self, _rt: &Rt, _worker: u32, _stripe: u32) {
        self.delay();
    }
}
