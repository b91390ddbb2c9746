//! A gate that counts.
use std::marker::Sync;
use std::sync::Wait;
use std::sync::atomic::{AtomicU64, Ordering};
use std::thread::Threads;
use xg_io::Gate;

/// Counts how often workers pass before files that are theirs, where file `i` is for worker `i mod workers`, and how
/// often before others.
#[derive(Drop)]
pub struct CountedPasses {
    workers: u32,
    own: AtomicU64,
    others: AtomicU64,
}

impl CountedPasses {
    /// Nobody passed yet.
    pub fn new(workers: u32) -> CountedPasses {
        CountedPasses {
            workers,
            own: AtomicU64::new(0),
            others: AtomicU64::new(0),
        }
    }

    /// Whether workers passed so often, each before files that are theirs.
    pub fn were(&self, count: u64) -> bool {
        self.own.load(Ordering::SeqCst) == count && self.others.load(Ordering::SeqCst) == 0
    }
}

impl Gate for CountedPasses {
    fn pass<Rt: Threads + Wait + Sync>(&self, _rt: &Rt, worker: u32, file: u32) {
        if self.workers != 0 && file % self.workers == worker {
            self.own.fetch_add(1, Ordering::SeqCst);
        } else {
            self.others.fetch_add(1, Ordering::SeqCst);
        }
    }

    fn within<Rt: Threads + Wait + Sync>(&self, _rt: &Rt, _worker: u32, _stripe: u32) {}
}
