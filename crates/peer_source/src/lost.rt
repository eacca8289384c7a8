//! What a cache has lost, and why.

/// The entries that left a cache to make room, and the values that it did not keep. A count stays where it cannot rise.
#[derive(Clone, Copy, Debug, PartialEq, Eq)]
pub struct Lost {
    /// Entries that left since the bytes were over the limit.
    pub by_bytes: u64,
    /// Entries that left since there were as many as there may be.
    pub by_keys: u64,
    /// Values that were not kept, since the entry was larger than the limit.
    pub too_large: u64,
}

impl Lost {
    /// Nothing was lost.
    pub const NONE: Lost = Lost {
        by_bytes: 0,
        by_keys: 0,
        too_large: 0,
    };

    /// An entry left if it gave its place to another, and so many since the bytes were over the limit.
    pub(crate) fn count(&mut self, gave_its_place: bool, by_bytes: usize) {
        self.by_keys = self.by_keys.saturating_add(u64::from(gave_its_place));
        self.by_bytes = self.by_bytes.saturating_add(by_bytes as u64);
    }

    /// A value was too large.
    pub(crate) fn count_too_large(&mut self) {
        self.too_large = self.too_large.saturating_add(1);
    }

    /// What two caches have lost together.
    pub fn plus(self, other: Lost) -> Lost {
        Lost {
            by_bytes: self.by_bytes.saturating_add(other.by_bytes),
            by_keys: self.by_keys.saturating_add(other.by_keys),
            too_large: self.too_large.saturating_add(other.too_large),
        }
    }
}
