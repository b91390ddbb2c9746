//! Gates that count, that know the order of calls, and that delay.
use std::marker::Sync;
use std::sync::Wait;
use std::sync::atomic::{AtomicU64, Ordering};
use std::thread;
use std::thread::Threads;
use xg_io::Gate;

/// Counts the calls.
#[derive(Drop)]
pub(crate) struct Counts {
    passes: AtomicU64,
    withins: AtomicU64,
}

impl Gate for Counts {
    fn pass<Rt: Threads + Wait + Sync>(&self, _rt: &Rt, _worker: u32, _job: u32) {
        self.passes.fetch_add(1, Ordering::SeqCst);
    }

    fn within<Rt: Threads + Wait + Sync>(&self, _rt: &Rt, _worker: u32, _stripe: u32) {
        self.withins.fetch_add(1, Ordering::SeqCst);
    }
}

impl Counts {
    pub(crate) fn new() -> Counts {
        Counts {
            passes: AtomicU64::new(0),
            withins: AtomicU64::new(0),
        }
    }

    /// Whether the gate was called so often.
    pub(crate) fn are(&self, passes: u64, withins: u64) -> bool {
        self.passes.load(Ordering::SeqCst) == passes
            && self.withins.load(Ordering::SeqCst) == withins
    }
}

/// Counts the calls of one worker over three stripes, and those that come out of turn: a pass has its turn first, and
/// then each stripe from the first one on, again and again.
#[derive(Drop)]
pub(crate) struct Turns {
    calls: AtomicU64,
    strays: AtomicU64,
}

impl Gate for Turns {
    fn pass<Rt: Threads + Wait + Sync>(&self, _rt: &Rt, _worker: u32, _job: u32) {
        self.call(0);
    }

    fn within<Rt: Threads + Wait + Sync>(&self, _rt: &Rt, _worker: u32, stripe: u32) {
        self.call(u64::from(stripe) + 1);
    }
}

impl Turns {
    pub(crate) fn new() -> Turns {
        Turns {
            calls: AtomicU64::new(0),
            strays: AtomicU64::new(0),
        }
    }

    fn call(&self, turn: u64) {
        if self.calls.fetch_add(1, Ordering::SeqCst) % 4 != turn {
            self.strays.fetch_add(1, Ordering::SeqCst);
        }
    }

    /// Whether there were so many calls, each in its turn.
    pub(crate) fn are(&self, calls: u64) -> bool {
        self.calls.load(Ordering::SeqCst) == calls && self.strays.load(Ordering::SeqCst) == 0
    }
}

/// Counts the calls, and lets other threads run at each pass, now more and now less often.
#[derive(Drop)]
pub(crate) struct Delays {
    pub(crate) counts: Counts,
}

impl Gate for Delays {
    fn pass<Rt: Threads + Wait + Sync>(&self, rt: &Rt, worker: u32, job: u32) {
        for _ in 0..worker % 5 + job % 3 {
            thread::yield_now();
        }
        self.counts.pass(rt, worker, job);
    }

    fn within<Rt: Threads + Wait + Sync>(&self, rt: &Rt, worker: u32, stripe: u32) {
        self.counts.within(rt, worker, stripe);
    }
}
