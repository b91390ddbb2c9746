//! A gate at which workers meet.
use crate::event::Event;
use std::marker::Sync;
use std::sync::Wait;
use std::sync::atomic::{AtomicU64, Ordering};
use std::thread::Threads;
use xg_io::Gate;

/// Holds each worker at its first pass until so many others are there too.
#[derive(Drop)]
pub struct Meeting {
    others: u64,
    passes: AtomicU64,
    complete: Event,
}

impl Meeting {
    /// Each worker waits for so many others.
    pub fn new(others: u64) -> Meeting {
        Meeting {
            others,
            passes: AtomicU64::new(0),
            complete: Event::new(),
        }
    }

    /// Whether so many workers were there at once, and none gave up.
    pub fn was_met(&self) -> bool {
        self.complete.was_met()
    }
}

impl Gate for Meeting {
    fn pass<Rt: Threads + Wait + Sync>(&self, _rt: &Rt, _worker: u32, _job: u32) {
        if self.passes.fetch_add(1, Ordering::SeqCst) < self.others {
            self.complete.wait();
        } else {
            self.complete.tell();
        }
    }

    fn within<Rt: Threads + Wait + Sync>(&self, _rt: &Rt, _worker: u32, _stripe: u32) {}
}
