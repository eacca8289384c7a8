//! The connections of a thread that may be used again.
//!
//! It stands on vectors, and promises nothing that contracts see.

use std::alloc::{AllocError, Global};

/// The keys of connections that may be used again.
#[derive(Drop)]
pub struct Idle {
    // Those of each endpoint, the one used last behind the others.
    each: Vec<Vec<usize>>,
}

impl Idle {
    /// There is none to any of so many endpoints.
    pub fn new(alloc: Global, endpoints: usize) -> Result<Idle, AllocError> {
        let mut each = Vec::with_capacity(alloc, endpoints)?;
        for _ in 0..endpoints {
            each.push(Vec::new(alloc))?;
        }
        Ok(Idle { each })
    }

    /// Puts a connection to this endpoint behind the others. Whether there is memory for that.
    pub fn put(&mut self, number: usize, key: usize) -> bool {
        match self.each.get_mut(number) {
            Some(keys) => keys.push(key).is_ok(),
            None => false,
        }
    }

    /// How many there are to this endpoint.
    pub fn count(&self, number: usize) -> usize {
        match self.each.get(number) {
            Some(keys) => keys.len(),
            None => 0,
        }
    }

    /// Takes out the one to this endpoint that was used last.
    pub fn pop(&mut self, number: usize) -> Option<usize> {
        self.each.get_mut(number)?.pop()
    }

    /// Takes out the one that was used longest ago, of the endpoint that has most of them.
    pub fn pop_oldest(&mut self) -> Option<usize> {
        let longest = self.each.iter_mut().max_by_key(|keys| keys.len())?;
        if longest.is_empty() {
            return None;
        }
        Some(longest.remove(0))
    }

    /// Takes out one to this endpoint that ended.
    pub fn remove(&mut self, number: usize, key: usize) {
        if let Some(keys) = self.each.get_mut(number) {
            keys.retain(|kept| *kept != key);
        }
    }
}
