//! Gates that hold one worker until another one is somewhere.
use crate::event::Event;
use std::marker::Sync;
use std::sync::Wait;
use std::thread::Threads;
use xg_io::Gate;

/// Holds one worker at its first pass until another one has passed.
#[derive(Drop)]
pub struct HeldPass {
    held: u32,
    other: u32,
    passed: Event,
}

impl HeldPass {
    /// Worker `held` waits at its first pass for worker `other`.
    pub fn new(held: u32, other: u32) -> HeldPass {
        HeldPass {
            held,
            other,
            passed: Event::new(),
        }
    }

    /// Whether the other worker passed, and the held one didn't give up.
    pub fn was_met(&self) -> bool {
        self.passed.was_met()
    }
}

impl Gate for HeldPass {
    fn pass<Rt: Threads + Wait + Sync>(&self, _rt: &Rt, worker: u32, _job: u32) {
        if worker == self.other {
            self.passed.tell();
        } else if worker == self.held {
            self.passed.wait();
        }
    }

    fn within<Rt: Threads + Wait + Sync>(&self, _rt: &Rt, _worker: u32, _stripe: u32) {}
}

/// Holds worker 0 within stripe 0, at its first addition, until worker 1 was within stripe 1. Worker 1 is held at its
/// first pass until worker 0 is there, so it can't have been within stripe 1 before.
#[derive(Drop)]
pub struct HeldStripe {
    zero: Event,
    one: Event,
}

impl HeldStripe {
    /// No worker has come yet.
    pub fn new() -> HeldStripe {
        HeldStripe {
            zero: Event::new(),
            one: Event::new(),
        }
    }

    /// Whether both workers were where the other one waited for them, and none gave up.
    pub fn was_met(&self) -> bool {
        self.zero.was_met() && self.one.was_met()
    }
}

impl Gate for HeldStripe {
    fn pass<Rt: Threads + Wait + Sync>(&self, _rt: &Rt, worker: u32, _job: u32) {
        if worker == 1 {
            self.zero.wait();
        }
    }

    fn within<Rt: Threads + Wait + Sync>(&self, _rt: &Rt, worker: u32, stripe: u32) {
        if worker == 0 && stripe == 0 {
            self.zero.tell();
            self.one.wait();
        } else if worker == 1 && stripe == 1 {
            self.one.tell();
        }
    }
}
