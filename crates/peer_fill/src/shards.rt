//! The caches of a pool in shards, so that threads that ask for different keys seldom wait for one another.
//!
//! Each shard has a cache for each group under a lock of its own. A group's keys are in the first shards, as many as its plan says,
//! each in the one that its hash names; its caches in further shards stay empty. It promises that what it gives for a group and a
//! key was found for them, and that a key is in one of its group's shards. That it stays the same one is tested, and no clause.
ghost use Rattle.std.specs.Prelude.{◌≡◌, ◌≤◌, ◌<◌, [], All, IfOk, IfSome, length, slice_get, unwrap_or};

use crate::cache_counts::CacheCounts;
use crate::caches::Caches;
use crate::caching::Caching;
use crossbeam_utils::CachePadded;
use peer_source::{Evicted, Fill, GroupId, MAX_GROUPS, Source};
use peer_wait::lock;
use std::alloc::{AllocError, Global};
use std::hash::{BuildHasher, Hasher};
use std::sync::{Mutex, Wait};

// The prime of FNV-1a for 64 bits.
const PRIME: u64 = 0x100_0000_01B3;

/// The shards, a power of two of them.
#[derive(Drop)]
pub struct Shards<S: Source> {
    each: Vec<CachePadded<Mutex<Caches<S>>>>,
    // What the hash of a key begins with.
    seed: u64,
    // The place of the last shard of each group, which is one less than a power of two.
    last_places: [u8; MAX_GROUPS],
    ghost some: { 0 < length each.items },
    ghost within: { All (λ last. last < length each.items) last_places },
}

// How many shards there are if these are the places of the last shards of all groups.
fn count_of(last_places: &[u8]) -> usize
    ensures some { 1 ≤ result }
    ensures within { All (λ last. last < result) last_places.now }
{
    let mut count = 1;
    for last in last_places {
        count = (usize::from(*last) + 1).max(count);
    }
    count
}

// Adds a fill, if what goes for it has room in the list. Whether there is nothing left to do.
fn add_within<S: Source>(caches: &mut Caches<S>, fill: &Fill<S>, evicted: &mut Evicted) -> bool {
    if !caches.make_room(fill, evicted) {
        return false;
    }
    let _ = caches.add(fill, evicted);
    true
}

impl<S: Source> Shards<S> {
    ghost use Rattle.peer_fill.specs.Caches.{IsFoundFor};
    ghost use Rattle.peer_fill.specs.Plans.{HaveShards};

    /// The shards for so many groups, without entries, as planned. The seed is for the choice of the shard and for the maps.
    pub fn new(alloc: Global, groups: usize, caching: Caching<'_>) -> Result<Shards<S>, AllocError>
        requires { groups ≤ 64 }
        ensures { IfOk result (λ shards. HaveShards caching.entry.plan caching.entry.own.now groups shards.last_places) }
    {
        let last_places = caching.last_places(groups);
        let mut each = Vec::new(alloc);
        for _shard in 0..count_of(&last_places) {
            let caches = Caches::new(alloc, groups, caching)?;
            each.push(CachePadded::new(Mutex::new(caches)))?;
        }
        let seed = caching.seed.build_hasher().finish();
        Ok(Shards {
            each,
            seed,
            last_places,
        })
    }

    // The number that says in which shard a key is kept: FNV-1a from the seed, both halves of it. It takes few steps for a byte.
    fn hash(&self, key: &[u8]) -> u64 {
        let mut hash = self.seed;
        for byte in key {
            hash = (hash ^ u64::from(*byte)).wrapping_mul(PRIME);
        }
        hash ^ (hash >> 32)
    }

    // The place of the last shard of a group. One that has no cache has the first.
    fn last_place(&self, group: GroupId) -> usize
        ensures own { result ≡ unwrap_or (slice_get self.now.last_places group.number) 0 }
        ensures within { result < length self.now.each.items }
    {
        match self.last_places.get(group.number) {
            Some(last) => usize::from(*last),
            None => 0,
        }
    }

    // The place of the shard of a key.
    #[tactic(auto, using(std::proofs::lemmas::Nat::and_le_r))]
    fn place(&self, group: GroupId, key: &[u8]) -> usize
        ensures own { result ≤ unwrap_or (slice_get self.now.last_places group.number) 0 }
        ensures within { result < length self.now.each.items }
    {
        let last = self.last_place(group);
        if last == 0 {
            return 0;
        }
        self.hash(key) as usize & last
    }

    // The shard of a key.
    fn of(&self, group: GroupId, key: &[u8]) -> &Mutex<Caches<S>> {
        &self.each[self.place(group, key)]
    }

    /// The fill of the value that is kept for the group and the key.
    pub fn get<R: Wait>(
        &self,
        rt: &R,
        group: GroupId,
        key: &[u8],
    ) -> Result<Option<Fill<S>>, AllocError>
        ensures { IfOk result (λ found. IfSome found (IsFoundFor group.number key.now)) }
    {
        lock(rt, self.of(group, key)).get(group, key)
    }

    /// Keeps a value that was found in the cache of its group, unless memory refuses that. What is evicted for it is let go
    /// outside the lock, a list at a time.
    pub fn keep<R: Wait>(&self, rt: &R, fill: &Fill<S>, evicted: &mut Evicted)
        ensures { evicted.new.items ≡ [] }
    {
        let shard = self.of(fill.group(), fill.key().as_slice());
        for _list in 0..u32::MAX {
            if add_within(&mut lock(rt, shard), fill, evicted) {
                break;
            }
            evicted.clear()
        }
        evicted.clear();
    }

    /// What the caches of a group keep and have lost, each shard as it is once it is looked at.
    pub fn counts<R: Wait>(&self, rt: &R, group: GroupId) -> CacheCounts {
        let mut sum = CacheCounts::NONE;
        for shard in self.each.iter().take(self.last_place(group) + 1) {
            let counts = lock(rt, shard).counts(group);
            sum = sum.plus(counts);
        }
        sum
    }

    /// The bytes that all of them keep, 2^64 - 1 at most, each shard as it is once it is looked at.
    pub fn bytes<R: Wait>(&self, rt: &R) -> u64 {
        let mut bytes = 0u64;
        for shard in &self.each {
            bytes = bytes.saturating_add(lock(rt, shard).bytes());
        }
        bytes
    }
}
