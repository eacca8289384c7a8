//! By what a server waits for clients: its listener, and the poll that reports them.

use mio::net::TcpListener;
use mio::{Events, Interest, Poll, Token};
use std::alloc::Global;
use std::net;
use std::net::Net;

// How many events one wait reports: the listener's, and those of the two who wake it.
const MAX_EVENTS: usize = 4;

/// A listener whose clients are reported.
#[derive(Drop)]
pub struct Listening {
    pub listener: TcpListener,
    pub poll: Poll,
    events: Events,
}

// Has the listener's clients reported. None where the system refuses that.
fn watch(listener: net::TcpListener, poll: &Poll) -> Option<TcpListener> {
    listener.set_nonblocking(true).ok()?;
    let mut listener = TcpListener::from_std(listener);
    poll.registry()
        .register(&mut listener, Token(0), Interest::READABLE)
        .ok()?;
    Some(listener)
}

impl Listening {
    /// Has the listener's clients reported. None where memory or the system refuses that.
    pub fn new<H: Net>(rt: &H, alloc: Global, listener: net::TcpListener) -> Option<Listening> {
        let poll = Poll::new(rt).ok()?;
        let listener = watch(listener, &poll)?;
        let events = Events::with_capacity(alloc, MAX_EVENTS).ok()?;
        Some(Listening {
            listener,
            poll,
            events,
        })
    }

    /// Waits for clients, or until its poll is woken. Whether the system could do that.
    pub fn wait(&mut self) -> bool {
        self.poll.poll(&mut self.events, None).is_ok()
    }
}
