//! What the caches of a group keep and have lost.
ghost use Rattle.std.specs.Prelude.{◌≡◌, ◌+◌, ◌-◌, ◌^◌, min};

use peer_source::Lost;

/// What the cache of a group, or several of them, keeps, and what it has lost since it was made.
#[derive(Clone, Copy, Debug, PartialEq, Eq)]
pub struct CacheCounts {
    pub entries: u64,
    /// The bytes of the entries, as the cache counts them.
    pub bytes: u64,
    pub lost: Lost,
}

impl CacheCounts {
    /// Nothing is kept, and nothing was lost.
    pub const NONE: CacheCounts = CacheCounts {
        entries: 0,
        bytes: 0,
        lost: Lost {
            by_bytes: 0,
            by_keys: 0,
            too_large: 0,
        },
    };

    /// What two of them keep and have lost together, 2^64 - 1 of each at most.
    pub fn plus(self, other: CacheCounts) -> CacheCounts
        ensures entries { result.entries ≡ min (self.entries + other.entries) (2 ^ 64 - 1) }
        ensures bytes { result.bytes ≡ min (self.bytes + other.bytes) (2 ^ 64 - 1) }
    {
        CacheCounts {
            entries: self.entries.saturating_add(other.entries),
            bytes: self.bytes.saturating_add(other.bytes),
            lost: self.lost.plus(other.lost),
        }
    }
}
