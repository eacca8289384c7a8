//! What the two ends of a lane share to wait for one another.
use crossbeam_utils::CachePadded;
use peer_wait::{Notice, Waiter};
use std::sync::atomic::AtomicBool;
use std::sync::atomic::Ordering::SeqCst;

/// The signal of one connection. Its flags are for waiting, and no contract rests on them.
///
/// No notice is lost: a ticket's place, a flag and an announced sleep are each stored with `SeqCst` before the other
/// end's are loaded.
#[derive(Drop)]
pub struct Signal {
    // Each wait writes here, so that the flags lie elsewhere.
    changed: CachePadded<Notice>,
    finished: AtomicBool,
    stopped: AtomicBool,
}

impl Signal {
    pub const fn new() -> Signal {
        Signal {
            changed: CachePadded::new(Notice::new()),
            finished: AtomicBool::new(false),
            stopped: AtomicBool::new(false),
        }
    }

    /// Wakes the other end where it sleeps: after a `put` or a `take` that does not wait.
    pub fn notify(&self) {
        self.changed.notify_all();
    }

    /// One end's wait for the other.
    pub(crate) fn waiter(&self) -> Waiter<'_> {
        Waiter::new(&self.changed)
    }

    /// Nothing more will be put. Call it after the last `put`.
    pub fn finish(&self) {
        self.finished.store(true, SeqCst);
        self.notify();
    }

    /// Load it before a `take` that is to be the last.
    pub fn is_finished(&self) -> bool {
        self.finished.load(SeqCst)
    }

    /// Nothing more needs to be read. What was put is still taken, so that no `put` waits for ever.
    pub fn stop(&self) {
        self.stopped.store(true, SeqCst);
    }

    pub fn is_stopped(&self) -> bool {
        self.stopped.load(SeqCst)
    }
}
