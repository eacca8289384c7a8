//! How another thread ends the server of the page.

use mio::{Poll, Token, Waker};
use std::sync::atomic::AtomicBool;
use std::sync::atomic::Ordering::SeqCst;

// The token under which the server is woken.
const ENDED: Token = Token(usize::MAX);

/// Ends a server of the page. Threads share it.
#[derive(Drop)]
pub struct StatsEnd {
    ended: AtomicBool,
    waker: Waker,
}

impl StatsEnd {
    /// The end of the server that has this poll. None where the system refuses it.
    pub(crate) fn new(poll: &Poll) -> Option<StatsEnd> {
        Some(StatsEnd {
            ended: AtomicBool::new(false),
            waker: Waker::new(poll.registry(), ENDED).ok()?,
        })
    }

    /// The server ends at once. Its clients are let go.
    pub fn end(&self) {
        self.ended.store(true, SeqCst);
        let _ = self.waker.wake();
    }

    /// Whether it is to end.
    pub(crate) fn is_set(&self) -> bool {
        self.ended.load(SeqCst)
    }
}
