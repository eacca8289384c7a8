//! A list of clients of a loop, in the order in which they came onto it.

use crate::chain::{Chain, EMPTY, Entries};
use std::alloc::{AllocError, Global};

/// A list of clients. Each is on it once at most.
#[derive(Drop)]
pub struct ClientList {
    chain: Chain,
    entries: Entries,
}

impl ClientList {
    /// Nobody is on it. It takes no memory yet.
    pub fn new(alloc: Global) -> ClientList {
        ClientList {
            chain: EMPTY,
            entries: Entries::new(alloc),
        }
    }

    /// How many are on it.
    pub fn len(&self) -> usize {
        self.chain.count
    }

    /// Whether nobody is on it.
    pub fn is_empty(&self) -> bool {
        self.chain.first.is_none()
    }

    /// Makes room for this client.
    pub fn reserve(&mut self, key: usize) -> Result<(), AllocError> {
        self.entries.reserve(key)
    }

    /// Puts a client behind the others, where it is not on the list.
    pub fn push(&mut self, key: usize) {
        self.entries.push(&mut self.chain, key);
    }

    /// Takes the client off the list that came onto it first.
    pub fn pop(&mut self) -> Option<usize> {
        let key = self.chain.first?;
        self.remove(key);
        Some(key)
    }

    /// Takes a client off the list.
    pub fn remove(&mut self, key: usize) {
        self.entries.remove(&mut self.chain, key);
    }
}
