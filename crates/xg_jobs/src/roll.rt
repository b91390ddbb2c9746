//! Which threads have ended their parts.
use std::sync::atomic::{AtomicU64, Ordering};

/// How many of some parts are done, as the threads that do them say.
#[derive(Drop)]
pub(crate) struct Roll {
    pub(crate) parts: u64,
    pub(crate) done: AtomicU64,
}

impl Roll {
    /// Says that one more part is done.
    pub(crate) fn sign(&self) {
        self.done.fetch_add(1, Ordering::SeqCst);
    }

    /// Whether all parts are done, at one of so many looks.
    pub(crate) fn is_full_within(&self, looks: usize) -> bool {
        for _look in 0..looks {
            if self.done.load(Ordering::SeqCst) >= self.parts {
                return true;
            }
        }
        false
    }
}
