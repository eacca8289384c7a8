//! Steps by which one thread holds another back.

use std::sync::atomic::AtomicBool;
use std::sync::atomic::Ordering::SeqCst;
use std::thread::yield_now;

// A minute or two, so that a test that waits in vain ends.
const LOOKS: u32 = 100_000_000;

/// What one thread tells and another waits for.
#[derive(Drop)]
pub struct Step {
    told: AtomicBool,
    expired: AtomicBool,
}

impl Step {
    /// Nothing was told yet.
    pub const fn new() -> Step {
        Step {
            told: AtomicBool::new(false),
            expired: AtomicBool::new(false),
        }
    }

    /// Whoever waits goes on.
    pub fn tell(&self) {
        self.told.store(true, SeqCst);
    }

    /// Goes on once the step was told, or after too many looks.
    pub fn wait(&self) {
        for _ in 0..LOOKS {
            if self.told.load(SeqCst) {
                return;
            }
            yield_now();
        }
        self.expired.store(true, SeqCst);
    }

    /// Whether a wait was in vain.
    pub fn has_expired(&self) -> bool {
        self.expired.load(SeqCst)
    }
}
