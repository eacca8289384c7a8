//! The clients of a loop: which are to have a turn, which wait for a fill, and which for room in the queue of jobs.
//!
//! It stands on `Client`, a stream and its connection, and on the lists (`ClientList`, and by slot `WaitLists`). It promises
//! nothing that contracts see: a client waits on each list once at most, to list one takes no memory, which is had as it is added,
//! and one that left is on none.

use crate::client::Client;
use crate::client_list::ClientList;
use crate::facts::Facts;
use crate::wait_lists::WaitLists;
use mio::event::Event;
use mio::{Registry, Token};
use peer_runtime::keys_of;
use peer_source::Source;
use slab::Slab;
use std::alloc::{AllocError, Global};

/// The clients, each under its key.
#[derive(Drop)]
pub struct Clients<'a, S: Source, F: Facts<S>> {
    /// All of them.
    pub each: Slab<Client<'a, S, F>>,
    // Those that are to have a turn.
    ready: ClientList,
    // Those that wait for room in the queue of jobs, the one that waits longest first.
    for_room: ClientList,
    // Those that wait for a fill.
    waiting: WaitLists,
}

impl<'a, S: Source, F: Facts<S>> Clients<'a, S, F> {
    /// There is none.
    pub fn new(alloc: Global) -> Clients<'a, S, F> {
        Clients {
            each: Slab::new(alloc),
            ready: ClientList::new(alloc),
            for_room: ClientList::new(alloc),
            waiting: WaitLists::new(alloc),
        }
    }

    // Makes room on all lists for one client more.
    fn reserve(&mut self) -> Result<(), AllocError> {
        self.each.reserve(1)?;
        let key = self.each.vacant_key();
        self.waiting.reserve(key)?;
        self.ready.reserve(key)?;
        self.for_room.reserve(key)
    }

    /// Adds a client, and says whether memory and the system allow it.
    pub fn add(&mut self, registry: &Registry, mut client: Client<'a, S, F>) -> bool {
        let has_room = self.reserve().is_ok();
        let token = Token(self.each.vacant_key());
        has_room && client.register(registry, token).is_ok() && self.each.insert(client).is_ok()
    }

    /// Takes a client out, and off all lists.
    pub fn remove(&mut self, key: usize) -> Option<Client<'a, S, F>> {
        self.unlist(key);
        self.ready.remove(key);
        self.for_room.remove(key);
        self.each.try_remove(key)
    }

    /// Puts a client behind those that are to have a turn.
    pub fn make_ready(&mut self, key: usize) {
        if let Some(client) = self.each.get_mut(key) {
            client.is_ready = true;
            self.ready.push(key);
        }
    }

    /// Whether one is to have a turn.
    pub fn has_ready(&self) -> bool {
        !self.ready.is_empty()
    }

    /// How many are to have a turn.
    pub fn ready_count(&self) -> usize {
        self.ready.len()
    }

    /// Takes the client off its list that is to have its turn first.
    pub fn next_ready(&mut self) -> Option<usize> {
        let key = self.ready.pop()?;
        if let Some(client) = self.each.get_mut(key) {
            client.is_ready = false;
        }
        Some(key)
    }

    /// Notes an event of a client, which then has its turn.
    pub fn note(&mut self, event: &Event) {
        let key = event.token().0;
        if let Some(client) = self.each.get_mut(key) {
            client.note(event);
            self.make_ready(key);
        }
    }

    /// The number of the flight whose fill a client waits for.
    pub fn awaits(&self, key: usize) -> Option<u64> {
        self.each.get(key).and_then(|client| client.awaits())
    }

    /// Whether one is listed as one that waits for a fill.
    pub fn has_listed(&self) -> bool {
        !self.waiting.is_empty()
    }

    /// Takes a client off the list of those that wait for a fill.
    pub fn unlist(&mut self, key: usize) {
        self.waiting.remove(key);
    }

    /// Lists a client as one that waits for a fill, at the slot of its flight.
    pub fn list(&mut self, key: usize, slot: usize) {
        if self.waiting.slot(key) != Some(slot) {
            self.unlist(key);
            self.waiting.put(slot, key);
        }
    }

    /// Has those have their turn that are listed at a slot.
    pub fn take_listed(&mut self, slot: usize) {
        for _ in keys_of(&self.each) {
            let Some(key) = self.waiting.pop(slot) else {
                return;
            };
            self.make_ready(key);
        }
    }

    /// How many wait for room in the queue of jobs.
    pub fn for_room_count(&self) -> usize {
        self.for_room.len()
    }

    /// Lists a client as one that waits for room in the queue of jobs.
    pub fn wait_for_room(&mut self, key: usize) {
        self.for_room.push(key);
    }

    /// Takes the client off its list that has waited longest for room in the queue of jobs.
    pub fn next_for_room(&mut self) -> Option<usize> {
        self.for_room.pop()
    }

    /// Whether a client is to have a turn.
    pub fn is_ready(&self, key: usize) -> bool {
        match self.each.get(key) {
            Some(client) => client.is_ready,
            None => false,
        }
    }
}
