//! How the cache of a group is planned: one, as groupcache has it, or shards.
ghost use Rattle.std.specs.NonZero.{non_zero_usize_get};
ghost use Rattle.std.specs.Prelude.{◌≡◌, ◌≤◌, max};
ghost use Rattle.peer_fill.specs.Plans.{IsLargestPower, IsPlanFor, shards_of};

use std::num::NonZeroUsize;

// A shard has so many bytes and so many keys at least, where there is more than one.
const SHARD_BYTES: u64 = 16 << 20;

const SHARD_KEYS: u64 = 1024;

// The most shards.
const MAX_SHARDS: usize = 64;

/// The bytes that an entry counts beside those of its key and its value, for what it takes beside them (`bench/memory.py`). Each of
/// the two that has a block of its own counts half as many more.
pub const ENTRY_BYTES: u64 = 144;

/// What a cache may keep.
#[derive(Clone, Copy, Debug, PartialEq, Eq)]
pub struct Bounds {
    /// The most bytes.
    pub limit: u64,
    /// The most entries.
    pub most: NonZeroUsize,
    /// The bytes that an entry counts beside those of its key and its value, each of which counts half as many more if it has a
    /// block of its own.
    pub each: u64,
}

/// The caches of each group.
#[derive(Clone, Copy, Debug, PartialEq, Eq)]
pub enum CachePlan {
    /// One, as groupcache has it: so many bytes of keys and values at most, and 4,096 entries.
    Single(u64),
    /// So many shards, a power of two of them up to 64, each within these bounds. The hash of a key says in which it is kept.
    Sharded(NonZeroUsize, Bounds),
}

// The largest power of two up to 64 that is not above this number, and 1 for 0.
fn power_within(most: u64) -> u64
    ensures { IsLargestPower most result }
{
    if most >= 64 {
        64
    } else if most >= 32 {
        32
    } else if most >= 16 {
        16
    } else if most >= 8 {
        8
    } else if most >= 4 {
        4
    } else if most >= 2 {
        2
    } else {
        1
    }
}

// This number, and 1 for 0.
fn at_least_one(number: u64) -> NonZeroUsize
    ensures { non_zero_usize_get result ≡ max 1 number }
{
    NonZeroUsize::new(number as usize).unwrap_or(NonZeroUsize::MIN)
}

impl CachePlan {
    /// How many shards the group has.
    pub(crate) fn shards(&self) -> usize
        ensures own { result ≡ shards_of self.now }
        ensures some { 1 ≤ result }
        ensures most { result ≤ 64 }
    {
        match self {
            CachePlan::Single(_) => 1,
            CachePlan::Sharded(shards, _) => shards.get().min(MAX_SHARDS),
        }
    }

    /// Shards that together take so many bytes of memory, and keep so many keys at most, if a number is given. A group has as
    /// many shards as leave each 16 MiB and 1,024 keys, 64 at most.
    pub fn sharded(bytes: u64, keys: Option<u64>) -> CachePlan
        ensures { IsPlanFor bytes keys result }
    {
        let keys = keys.unwrap_or(u64::MAX);
        let count = power_within((bytes / SHARD_BYTES).min(keys / SHARD_KEYS));
        let bounds = Bounds {
            limit: bytes / count,
            most: at_least_one(keys / count),
            each: ENTRY_BYTES,
        };
        CachePlan::Sharded(at_least_one(count), bounds)
    }
}
