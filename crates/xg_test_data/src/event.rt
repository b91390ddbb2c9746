//! What a worker waits for.
use std::sync::atomic::{AtomicBool, Ordering};
use std::thread;

/// How often a worker that is held looks again before it gives up: some seconds.
const TURNS: u32 = 10_000_000;

/// What a worker may wait for, for a limited number of turns.
#[derive(Drop)]
pub(crate) struct Event {
    is_there: AtomicBool,
    is_missed: AtomicBool,
}

impl Event {
    /// Not there yet.
    pub(crate) fn new() -> Event {
        Event {
            is_there: AtomicBool::new(false),
            is_missed: AtomicBool::new(false),
        }
    }

    /// It is there.
    pub(crate) fn tell(&self) {
        self.is_there.store(true, Ordering::SeqCst);
    }

    /// Waits for it, or gives up.
    pub(crate) fn wait(&self) {
        for _ in 0..TURNS {
            if self.is_there.load(Ordering::SeqCst) || self.is_missed.load(Ordering::SeqCst) {
                return;
            }
            thread::yield_now();
        }
        self.is_missed.store(true, Ordering::SeqCst);
    }

    /// Whether it was there before anyone gave up.
    pub(crate) fn was_met(&self) -> bool {
        self.is_there.load(Ordering::SeqCst) && !self.is_missed.load(Ordering::SeqCst)
    }
}
