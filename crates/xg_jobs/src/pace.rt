//! When threads are started.

/// Threads are started for work as long as punctual ones have saved what a late one costs. Behind a late one that
/// wasn't paid for work is done by one thread for some time: the longer, the more often that was so, as it is where
/// processors are busy.
#[derive(Clone, Copy)]
pub(crate) struct Pace {
    pub(crate) saved: u32,
    pub(crate) pause: u32,
    pub(crate) left: u32,
}

/// How many punctual starts save what a late one costs.
const PRICE: u32 = 12;

/// How many punctual starts are saved up at the most. As many let earlier ones be forgotten that were late.
const MOST_SAVED: u32 = 24;

/// The longest pause between two starts of threads.
const LONGEST_PAUSE: u32 = 1023;

impl Pace {
    /// Whether threads are to be started this time.
    pub(crate) fn is_due(&mut self) -> bool {
        if self.left == 0 {
            return true;
        }
        self.left -= 1;
        false
    }

    /// Whether threads were punctual since any that weren't paid for.
    pub(crate) fn is_unbroken(&self) -> bool {
        self.pause == 0 && self.saved > 0
    }

    /// Sets the pause behind a start, by whether all threads had ended when they were looked for.
    pub(crate) fn note(&mut self, punctual: bool) {
        if punctual && self.saved < MOST_SAVED {
            self.saved += 1;
        } else if punctual {
            self.pause = 0;
        } else if self.saved >= PRICE {
            self.saved -= PRICE;
        } else {
            self.saved = 0;
            self.pause = self.pause.min(LONGEST_PAUSE / 8) * 8 + 7;
            self.left = self.pause;
        }
    }
}
