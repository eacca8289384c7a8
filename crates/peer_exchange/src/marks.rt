//! What is noted of the requests whose tickets wait, if replies are told to an access log: when each came, and how its value was
//! found.
//!
//! It stands on a queue beside that of the tickets. It promises nothing that contracts see.

use peer_access::Found;
use peer_flight::Claim;
use peer_source::Source;
use peer_wish::{Body, MAX_TICKETS};
use std::alloc::Global;
use std::collections::VecDeque;
use std::net::SocketAddr;
use std::time::Duration;

/// What is noted of a request.
#[derive(Clone, Copy)]
pub(crate) struct Mark {
    /// When its bytes had come, by the time since the loop began.
    pub(crate) came: Duration,
    pub(crate) found: Found,
}

/// What is noted of a client.
#[derive(Clone, Copy)]
pub(crate) struct Caller {
    /// Its address, if the system tells it.
    pub(crate) address: Option<SocketAddr>,
    /// The time since the loop began, in this turn.
    pub(crate) now: Duration,
}

// What is noted for an access log.
#[derive(Drop)]
struct Noted {
    caller: Caller,
    // When bytes came last.
    came: Duration,
    // For each ticket that waits, in their order.
    each: VecDeque<Mark>,
}

/// What is noted of the requests whose tickets wait, if it is.
#[derive(Drop)]
pub(crate) struct Marks {
    noted: Option<Noted>,
}

// How the value of a ticket is found. A flight was led or joined.
fn found_of<S: Source>(body: &Body<S>, is_led: bool) -> Found {
    match body {
        Body::Fault(_) => Found::Nothing,
        Body::Claim(Claim::Ready(_)) => Found::Hit,
        Body::Claim(Claim::Pending(_)) if is_led => Found::Led,
        Body::Claim(Claim::Pending(_)) => Found::Joined,
    }
}

impl Marks {
    /// Nothing is noted.
    pub(crate) fn none() -> Marks {
        Marks { noted: None }
    }

    /// It is noted of a client at this address. Nothing is where memory is refused.
    pub(crate) fn of(alloc: Global, address: Option<SocketAddr>) -> Marks {
        let Ok(each) = VecDeque::with_capacity(alloc, MAX_TICKETS) else {
            return Marks::none();
        };
        let caller = Caller {
            address,
            now: Duration::ZERO,
        };
        Marks {
            noted: Some(Noted {
                caller,
                came: Duration::ZERO,
                each,
            }),
        }
    }

    /// A turn begins, so long after the loop began.
    pub(crate) fn note_turn(&mut self, now: Duration) {
        if let Some(noted) = &mut self.noted {
            noted.caller.now = now;
        }
    }

    /// Bytes came in this turn.
    pub(crate) fn note_came(&mut self) {
        if let Some(noted) = &mut self.noted {
            noted.came = noted.caller.now;
        }
    }

    /// A ticket with this body waits behind the others.
    pub(crate) fn note_asked<S: Source>(&mut self, body: &Body<S>, is_led: bool) {
        if let Some(noted) = &mut self.noted {
            // There is room for all tickets that wait.
            let _ = noted.each.push_back(Mark {
                came: noted.came,
                found: found_of(body, is_led),
            });
        }
    }

    /// The first ticket is answered: what was noted of it, and of its client.
    pub(crate) fn take(&mut self) -> Option<(Mark, Caller)> {
        let noted = self.noted.as_mut()?;
        let mark = noted.each.pop_front()?;
        Some((mark, noted.caller))
    }
}
