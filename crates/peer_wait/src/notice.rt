//! What is told to those who wait.

use crossbeam_utils::sync::{EventCount, Key};
use std::sync::atomic::AtomicBool;
use std::sync::atomic::Ordering::SeqCst;

/// Tells threads that wait of a change, which is made before.
///
/// A notice stands until one of them announces a sleep again, a notice to one also until it is acknowledged, and others of
/// its kind meanwhile wake nobody: many changes cost one wake-up. None is lost by that, since who announces a sleep looks
/// once more behind it.
#[derive(Drop)]
pub struct Notice {
    changed: EventCount,
    // Whether a notice to one stands, or to all.
    told_one: AtomicBool,
    told_all: AtomicBool,
}

impl Notice {
    pub const fn new() -> Notice {
        Notice {
            changed: EventCount::new(),
            told_one: AtomicBool::new(false),
            told_all: AtomicBool::new(false),
        }
    }

    /// Wakes one. It calls `acknowledge` where it found something, and wakes the next where more is left.
    pub fn notify_one(&self) {
        if !self.told_one.load(SeqCst) && !self.told_one.swap(true, SeqCst) {
            self.changed.notify_one();
        }
    }

    /// Wakes all.
    pub fn notify_all(&self) {
        if !self.told_all.load(SeqCst) && !self.told_all.swap(true, SeqCst) {
            self.changed.notify_all();
        }
    }

    /// Ends a notice to one: the next one wakes again.
    pub fn acknowledge(&self) {
        self.told_one.store(false, SeqCst);
    }

    /// Wakes the next one in place of the one that was woken: what that one took was not all that is there.
    pub fn pass_on(&self) {
        self.acknowledge();
        self.notify_one();
    }

    /// Announces a sleep. What changes from now on is told; what changed before is found by the look behind it.
    pub(crate) fn announce(&self) -> Key<'_> {
        let key = self.changed.prepare_wait();
        self.told_one.store(false, SeqCst);
        self.told_all.store(false, SeqCst);
        key
    }
}

impl Default for Notice {
    fn default() -> Notice {
        Notice::new()
    }
}
