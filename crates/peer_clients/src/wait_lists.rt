//! Which clients of a loop wait for the fills at each slot.

use crate::chain::{Chain, EMPTY, Entries};
use peer_site::SLOTS;
use std::alloc::{AllocError, Global};

/// A list for each slot. A client is on one list at most.
#[derive(Drop)]
pub struct WaitLists {
    chains: [Chain; SLOTS],
    entries: Entries,
    // The slot at which each client is listed.
    slots: Vec<Option<usize>>,
    // How many are listed.
    count: usize,
}

impl WaitLists {
    /// Nobody waits. It takes no memory yet.
    pub fn new(alloc: Global) -> WaitLists {
        WaitLists {
            chains: [EMPTY; SLOTS],
            entries: Entries::new(alloc),
            slots: Vec::new(alloc),
            count: 0,
        }
    }

    /// Whether nobody waits.
    pub fn is_empty(&self) -> bool {
        self.count == 0
    }

    /// Makes room for this client.
    pub fn reserve(&mut self, key: usize) -> Result<(), AllocError> {
        for _ in self.slots.len()..key.saturating_add(1) {
            self.slots.push(None)?;
        }
        self.entries.reserve(key)
    }

    /// The slot at which a client is listed.
    pub fn slot(&self, key: usize) -> Option<usize> {
        *self.slots.get(key)?
    }

    /// Lists a client, which is on no list, at the slot.
    pub fn put(&mut self, slot: usize, key: usize) {
        let (Some(chain), Some(listed)) = (self.chains.get_mut(slot), self.slots.get_mut(key))
        else {
            return;
        };
        *listed = Some(slot);
        self.entries.push(chain, key);
        self.count = self.count.saturating_add(1);
    }

    /// Takes the client off the list of the slot that came onto it first.
    pub fn pop(&mut self, slot: usize) -> Option<usize> {
        let key = self.chains.get(slot)?.first?;
        self.remove(key);
        Some(key)
    }

    /// Takes one client off its list.
    pub fn remove(&mut self, key: usize) {
        let Some(slot) = self.slots.get_mut(key).and_then(|listed| listed.take()) else {
            return;
        };
        if let Some(chain) = self.chains.get_mut(slot) {
            self.entries.remove(chain, key);
        }
        self.count = self.count.saturating_sub(1);
    }
}
