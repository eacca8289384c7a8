//! How a server is told to end.
//!
//! Who stops sets `asked`, and looks for the waker behind that. The server sets the waker, and looks at `asked` behind
//! that, and before each wait. So either the one finds the waker, and a wake-up that comes before the wait ends it at once,
//! or the other finds that it was asked.

use mio::{Poll, Token, Waker};
use std::sync::OnceLock;
use std::sync::atomic::AtomicBool;
use std::sync::atomic::Ordering::SeqCst;

// The token under which the thread that accepts is woken.
const STOPPED: Token = Token(usize::MAX - 1);

/// Ends one server, from any thread.
#[derive(Drop)]
pub struct Stop {
    asked: AtomicBool,
    waker: OnceLock<Waker>,
}

impl Stop {
    /// No server was told to end.
    pub fn new() -> Stop {
        Stop {
            asked: AtomicBool::new(false),
            waker: OnceLock::new(),
        }
    }

    /// The server accepts no more connections, reads what has come by then and no more, and ends once its clients have their
    /// replies and are closed. One that has accepted all that it is to ends with these, and later calls change nothing.
    pub fn stop(&self) {
        self.asked.store(true, SeqCst);
        if let Some(waker) = self.waker.get() {
            // A wake-up that the system refuses is one that it has under way.
            let _ = waker.wake();
        }
    }

    /// Whether the server was told to end.
    pub(crate) fn is_asked(&self) -> bool {
        self.asked.load(SeqCst)
    }

    /// The server whose thread that accepts has this poll is the one to end. None where the system refuses it, or where
    /// another is.
    pub(crate) fn watch(&self, poll: &Poll) -> Option<()> {
        let waker = Waker::new(poll.registry(), STOPPED).ok()?;
        match self.waker.try_set(waker) {
            Ok(_) => Some(()),
            Err(_) => None,
        }
    }
}
