//! How a thread that waits in a poll is woken.
//!
//! Why no wake-up is lost: the thread says that it falls asleep, looks behind that for what it waits for, and waits where
//! there is none. Who brings it looks behind that whether the thread sleeps. Of the saying and the bringing one comes first.
//! Where the saying does, who brings finds the thread asleep, and wakes it: a wake-up that comes before the wait ends it at
//! once. Where the bringing does, the thread's own look finds it. Of many who find it asleep the first takes that back, and
//! wakes it; the others need not. All orders are SeqCst.

use crossbeam_utils::CachePadded;
use mio::{Poll, Token, Waker};
use std::sync::atomic::AtomicBool;
use std::sync::atomic::Ordering::SeqCst;

/// The token under which a wake-up is reported.
pub const WOKEN: Token = Token(usize::MAX);

/// Wakes the one thread that waits in a poll.
#[derive(Drop)]
pub struct PollWaker {
    waker: Waker,
    asleep: CachePadded<AtomicBool>,
    closed: AtomicBool,
}

impl PollWaker {
    /// Wakes who waits in this poll. None where the system refuses it.
    pub fn new(poll: &Poll) -> Option<PollWaker> {
        Some(PollWaker {
            waker: Waker::new(poll.registry(), WOKEN).ok()?,
            asleep: CachePadded::new(AtomicBool::new(false)),
            closed: AtomicBool::new(false),
        })
    }

    /// The thread is about to sleep. It looks behind this for what it waits for.
    pub fn fall_asleep(&self) {
        self.asleep.store(true, SeqCst);
    }

    /// The thread does not sleep. Whether nobody has woken it since it said that it does.
    pub fn stay_awake(&self) -> bool {
        self.asleep.swap(false, SeqCst)
    }

    /// Wakes the thread, whether it sleeps or not.
    pub fn wake(&self) {
        // A wake-up that the system refuses is one that it has under way.
        let _ = self.waker.wake();
    }

    /// Wakes the thread where it sleeps, and says whether it did. Where it does not, this is one load.
    pub fn wake_asleep(&self) -> bool {
        let sleeps = self.asleep.load(SeqCst) && self.asleep.swap(false, SeqCst);
        if sleeps {
            self.wake();
        }
        sleeps
    }

    /// Nothing more comes: the thread ends once it has done what it has.
    pub fn close(&self) {
        self.closed.store(true, SeqCst);
        self.wake();
    }

    /// Whether nothing more comes.
    pub fn is_closed(&self) -> bool {
        self.closed.load(SeqCst)
    }
}
