//! A gate that holds nobody up, and counts.
use std::marker::Sync;
use std::sync::Wait;
use std::sync::atomic::{AtomicU64, Ordering};
use std::thread::Threads;
use xg_io::Gate;

/// Counts how often a worker is within a stripe.
#[derive(Drop)]
pub struct StripeCount {
    count: AtomicU64,
}

impl StripeCount {
    /// No worker was within a stripe yet.
    pub fn new() -> StripeCount {
        StripeCount {
            count: AtomicU64::new(0),
        }
    }

    /// How often a worker was within one.
    pub fn count(&self) -> u64 {
        self.count.load(Ordering::SeqCst)
    }
}

impl Gate for StripeCount {
    fn pass<Rt: Threads + Wait + Sync>(&self, _rt: &Rt, _worker: u32, _job: u32) {}

    fn within<Rt: Threads + Wait + Sync>(&self, _rt: &Rt, _worker: u32, _stripe: u32) {
        self.count.fetch_add(1, Ordering::SeqCst);
    }
}
