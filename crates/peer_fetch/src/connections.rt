//! The connections of one thread: which of them are to have a turn, which are kept, and when something is to be given up next.
//!
//! It stands on `Link`, a connection and its value, and on the keys of those that are kept (`Idle`). It promises nothing that
//! contracts see: none that is gone is on a list of those that are kept, and the time that is told never is too late. A key
//! stays among those that are to have a turn where its connection is gone: it is passed over, or the next one has its turn.
ghost use Rattle.std.specs.Prelude.{OnOk};
ghost use Rattle.slab.specs.Slab.{HasRoomFor};

use crate::idle::Idle;
use crate::link::{Link, Reusable, Way};
use mio::Token;
use mio::event::Event;
use peer_origin::Wires;
use peer_runtime::keys_of;
use peer_source::Source;
use slab::Slab;
use std::alloc::{AllocError, Global};
use std::collections::VecDeque;
use std::net::SocketAddr;
use std::ops::Range;
use std::time::Duration;

/// Connections, each under its key.
#[derive(Drop)]
pub struct Connections<'a, S: Source, H: Wires> {
    links: Slab<Link<'a, S, H>>,
    // Those that may be used again.
    idle: Idle,
    // Those that are to have a turn.
    ready: VecDeque<usize>,
    // The time since the thread began, as it was told last.
    now: Duration,
    // When something is to be given up next. It may be too early, and never is too late.
    next_due: Option<Duration>,
}

/// The earlier of two times.
pub fn earlier(one: Option<Duration>, other: Option<Duration>) -> Option<Duration> {
    match (one, other) {
        (Some(a), Some(b)) if b < a => Some(b),
        (Some(a), _) => Some(a),
        (None, b) => b,
    }
}

impl<'a, S: Source, H: Wires> Connections<'a, S, H> {
    /// There is none.
    pub fn new(alloc: Global, idle: Idle) -> Connections<'a, S, H> {
        Connections {
            links: Slab::new(alloc),
            idle,
            ready: VecDeque::new(alloc),
            now: Duration::ZERO,
            next_due: None,
        }
    }

    /// How many there are.
    pub fn len(&self) -> usize {
        self.links.len()
    }

    /// The connection under a key.
    pub fn get_mut(&mut self, key: usize) -> Option<&mut Link<'a, S, H>> {
        self.links.get_mut(key)
    }

    /// Makes room for one connection more.
    pub fn reserve(&mut self) -> Result<(), AllocError>
        ensures { OnOk result (HasRoomFor self.new.links 1) }
    {
        let more = self.links.len().saturating_add(1);
        self.ready.reserve(more)?;
        self.links.reserve(1)
    }

    /// The token of the next connection that is added.
    pub fn next_token(&self) -> Token {
        Token(self.links.vacant_key())
    }

    /// Adds a connection, for which there is room: none is lost.
    pub fn add(&mut self, link: Link<'a, S, H>)
        requires { HasRoomFor self.old.links 1 }
    {
        self.next_due = earlier(self.next_due, link.due());
        self.links.insert_reserved(link);
    }

    /// Lets a connection go.
    pub fn forget(&mut self, key: usize) {
        let _ = self.links.try_remove(key);
    }

    /// Lets a connection go that ended before the value was there. Says whether it was used before.
    pub fn forget_cut(&mut self, key: usize) -> bool {
        match self.links.try_remove(key) {
            Some(link) => link.was_kept,
            None => false,
        }
    }

    /// Lets a connection go that was not reached. Says where it led to.
    pub fn forget_unreached(&mut self, key: usize) -> Option<Way> {
        let link = self.links.try_remove(key)?;
        Some(link.way)
    }

    /// Takes a connection to the endpoint with this number off those that may be used again. One that has ended meanwhile is let go.
    pub fn take_idle(&mut self, number: usize) -> Option<usize> {
        for _ in 0..=self.links.len() {
            let key = self.idle.pop(number)?;
            let Some(link) = self.links.get(key) else {
                continue;
            };
            if link.is_idle() {
                return Some(key);
            }
            self.forget(key);
        }
        None
    }

    /// Keeps a connection, on which another request may follow, behind those to its endpoint that may be used again. Where memory is
    /// refused it is let go.
    pub fn keep(&mut self, key: usize, _reusable: Reusable) {
        let is_kept = match self.links.get(key) {
            Some(link) => self.idle.put(link.number, key),
            None => false,
        };
        if !is_kept {
            self.forget(key);
        }
    }

    /// How many are kept to the endpoint with this number.
    pub fn kept_count(&self, number: usize) -> usize {
        self.idle.count(number)
    }

    /// All keys that connections may have.
    pub fn keys(&self) -> Range<usize> {
        keys_of(&self.links)
    }

    /// The number of the endpoint of a connection that is kept, and its address.
    pub fn kept_at(&self, key: usize) -> Option<(usize, SocketAddr)> {
        let link = self.links.get(key)?;
        if link.is_free() {
            Some((link.number, link.way.address))
        } else {
            None
        }
    }

    /// Lets all connections go that are kept to an address.
    pub fn forget_kept_to(&mut self, address: SocketAddr) {
        for key in self.keys() {
            match self.kept_at(key) {
                Some((_, kept)) if kept == address => self.lose(key),
                _ => {}
            }
        }
    }

    /// Lets the connection go that was used longest ago, of the endpoint that has most of them.
    pub fn forget_oldest(&mut self) {
        if let Some(key) = self.idle.pop_oldest() {
            self.forget(key);
        }
    }

    /// Takes a connection out that ended while it was kept, also off those that may be used again, since another one gets its key.
    pub fn lose(&mut self, key: usize) {
        if let Some(link) = self.links.try_remove(key) {
            self.idle.remove(link.number, key);
        }
    }

    /// Whether one is to have a turn.
    pub fn is_ready(&self) -> bool {
        !self.ready.is_empty()
    }

    /// How many are to have a turn.
    pub fn ready_count(&self) -> usize {
        self.ready.len()
    }

    /// The next that is to have a turn.
    pub fn next_ready(&mut self) -> Option<usize> {
        self.ready.pop_front()
    }

    /// Puts a connection behind those that are to have a turn.
    pub fn make_ready(&mut self, key: usize) {
        if let Some(link) = self.links.get_mut(key) {
            if !link.is_ready {
                link.is_ready = self.ready.push_back(key).is_ok();
            }
        }
    }

    /// Notes an event of a connection, which then has its turn.
    pub fn note(&mut self, event: &Event) {
        let key = event.token().0;
        if let Some(link) = self.links.get_mut(key) {
            link.note(event);
            self.make_ready(key);
        }
    }

    /// How late it is, since the thread began, as it was told last.
    pub fn now(&self) -> Duration {
        self.now
    }

    /// When something is to be given up next, where values are under way.
    pub fn next_due(&self) -> Option<Duration> {
        self.next_due
    }

    /// Notes when a connection is due.
    pub fn note_due(&mut self, key: usize) {
        if let Some(link) = self.links.get(key) {
            self.next_due = earlier(self.next_due, link.due());
        }
    }

    /// It is so late.
    pub fn tell_time(&mut self, now: Duration) {
        self.now = now;
    }

    /// Has those have a turn that are to be given up by now.
    pub fn give_up_late(&mut self) {
        if self.is_due() {
            self.sweep();
        }
    }

    // Whether something is to be given up by now, or was.
    fn is_due(&self) -> bool {
        match self.next_due {
            Some(due) => due <= self.now,
            None => false,
        }
    }

    // Has those have a turn that are to be given up, and looks when the next is. Where there is one, it is swept once more
    // behind their turn.
    fn sweep(&mut self) {
        self.next_due = None;
        for key in keys_of(&self.links) {
            let due = self.links.get(key).and_then(|link| link.due());
            self.next_due = earlier(self.next_due, due);
            if let Some(due) = due {
                if due <= self.now {
                    self.make_ready(key);
                }
            }
        }
    }
}
