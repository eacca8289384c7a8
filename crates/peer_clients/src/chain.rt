//! Lists that are chained through one entry for each client: to put one behind the others takes no memory and cannot fail, and to
//! take one off takes no longer where many are on it.

use std::alloc::{AllocError, Global};

/// The ends of a list, and how many are on it.
#[derive(Clone, Copy)]
pub struct Chain {
    pub first: Option<usize>,
    last: Option<usize>,
    pub count: usize,
}

/// A list that nobody is on.
pub const EMPTY: Chain = Chain {
    first: None,
    last: None,
    count: 0,
};

// Whether a client is on a list, who is before it, and who behind it.
#[derive(Clone, Copy)]
struct Entry {
    listed: bool,
    before: Option<usize>,
    next: Option<usize>,
}

const UNLISTED: Entry = Entry {
    listed: false,
    before: None,
    next: None,
};

/// The entries of the clients. A client is on one of the lists that are chained through these at most.
#[derive(Drop)]
pub struct Entries {
    each: Vec<Entry>,
}

impl Entries {
    /// It takes no memory yet.
    pub fn new(alloc: Global) -> Entries {
        Entries {
            each: Vec::new(alloc),
        }
    }

    /// Makes room for the entry of this client.
    pub fn reserve(&mut self, key: usize) -> Result<(), AllocError> {
        for _ in self.each.len()..key.saturating_add(1) {
            self.each.push(UNLISTED)?;
        }
        Ok(())
    }

    /// Puts a client behind the others of a list, where it is on none.
    pub fn push(&mut self, chain: &mut Chain, key: usize) {
        let before = chain.last;
        match self.each.get_mut(key) {
            Some(entry) if !entry.listed => {
                *entry = Entry {
                    listed: true,
                    before,
                    next: None,
                };
            }
            _ => return,
        }
        chain.last = Some(key);
        chain.count = chain.count.saturating_add(1);
        if let Some(before) = before {
            if let Some(entry) = self.each.get_mut(before) {
                entry.next = Some(key);
            }
        } else {
            chain.first = Some(key);
        }
    }

    /// Takes a client off its list, which is this one.
    pub fn remove(&mut self, chain: &mut Chain, key: usize) {
        let Some(
            Entry {
                listed: true,
                before,
                next,
            },
        ) = self.each.get(key).copied()
        else {
            return;
        };
        if let Some(before) = before {
            if let Some(entry) = self.each.get_mut(before) {
                entry.next = next;
            }
        } else {
            chain.first = next;
        }
        if let Some(next) = next {
            if let Some(entry) = self.each.get_mut(next) {
                entry.before = before;
            }
        } else {
            chain.last = before;
        }
        if let Some(entry) = self.each.get_mut(key) {
            *entry = UNLISTED;
        }
        chain.count = chain.count.saturating_sub(1);
    }
}
