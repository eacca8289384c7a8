//! The main caches of a pool as it locks them: one for each group of its source.
ghost use Rattle.std.specs.Prelude.{◌≡◌, ◌-◌, ◌^◌, None, IfOk, IfSome, IsOk, OnErr, OnOk, length, min, slice_get, sum_by};
ghost use Rattle.peer_source.specs.Caches.{added, brought_to_front, bytes_in, value_to_keep};
ghost use Rattle.peer_fill.specs.Caches.{ArePlanned, IsFoundFor, EachInPlace, kept_fill, planned_cache, with_cache};

use crate::cache_counts::CacheCounts;
use crate::caching::Caching;
use crate::plan::CachePlan;
use peer_source::{Evicted, Fill, GroupId, MainCache, Source};
use std::alloc::{AllocError, Global};
use std::hash::RandomState;

/// The caches, each in the place of its group's number.
#[derive(Drop)]
pub struct Caches<S: Source> {
    each: Vec<MainCache<S>>,
    ghost in_place: { EachInPlace each.items },
}

// The cache of a group, as planned.
fn cache_of<S: Source>(
    alloc: Global,
    group: GroupId,
    plan: CachePlan,
    seed: RandomState,
) -> Result<MainCache<S>, AllocError>
    ensures { IfOk result (λ cache. cache ≡ planned_cache plan group.number) }
{
    match plan {
        CachePlan::Single(limit) => MainCache::new(alloc, group, limit, seed),
        CachePlan::Sharded(_, bounds) => MainCache::bounded(
            alloc,
            group,
            bounds.limit,
            bounds.most,
            bounds.each,
            seed,
        ),
    }
}

impl<S: Source> Caches<S> {
    /// So many caches without entries, each as its group's plan says.
    pub fn new(alloc: Global, count: usize, caching: Caching<'_>) -> Result<Caches<S>, AllocError>
        ensures { IfOk result (λ caches. ArePlanned caching.entry.plan caching.entry.own.now count caches.each.items) }
    {
        let mut each = Vec::new(alloc);
        for number in 0..count {
            let plan = caching.plan_of(number);
            each.push(cache_of(alloc, GroupId { number }, plan, caching.seed)?)?;
        }
        Ok(Caches { each })
    }

    /// The fill of the value that is kept for the group and the key, which comes to the front of its cache, also where memory
    /// refuses to share it. A group without a cache has none.
    #[tactic(auto, using(crate::proofs::Placing::in_place_set))]
    pub fn get(&mut self, group: GroupId, key: &[u8]) -> Result<Option<Fill<S>>, AllocError>
        ensures own { IfOk result (λ found. found ≡ kept_fill self.old.each.items group.number key.now) }
        ensures found { IfOk result (λ found. IfSome found (IsFoundFor group.number key.now)) }
        ensures front { self.new.each.items ≡ with_cache (brought_to_front key.now) group.number self.old.each.items }
        ensures missing { kept_fill self.old.each.items group.number key.now ≡ None → IsOk result }
    {
        let Some(cache) = self.each.get_mut(group.number) else {
            return Ok(None);
        };
        cache.find(key)
    }

    /// The bytes that all of them keep, 2^64 - 1 at most.
    pub fn bytes(&self) -> u64
        ensures { result ≡ min (sum_by (λ c. bytes_in c.each c.entries) self.now.each.items) (2 ^ 64 - 1) }
    {
        let mut bytes = 0u64;
        for cache in &self.each {
            bytes = bytes.saturating_add(cache.bytes());
        }
        bytes
    }

    /// What the cache of a group keeps and has lost. A group without a cache has nothing.
    pub fn counts(&self, group: GroupId) -> CacheCounts
        ensures entries { IfSome (slice_get self.now.each.items group.number) (λ c. result.entries ≡ length c.entries) }
        ensures bytes { IfSome (slice_get self.now.each.items group.number) (λ c. result.bytes ≡ bytes_in c.each c.entries) }
    {
        match self.each.get(group.number) {
            Some(cache) => CacheCounts {
                entries: cache.len() as u64,
                bytes: cache.bytes(),
                lost: cache.lost(),
            },
            None => CacheCounts::NONE,
        }
    }

    /// Lets entries go for this fill in the cache of its group, until it fits or the list of those that left is full: entries
    /// that adding it would evict. Whether it fits by now.
    #[tactic(auto, using(crate::proofs::Placing::in_place_set))]
    pub fn make_room(&mut self, fill: &Fill<S>, evicted: &mut Evicted) -> bool
        ensures { with_cache (added fill.now) fill.now.group self.new.each.items
            ≡ with_cache (added fill.now) fill.now.group self.old.each.items }
    {
        let Some(own) = self.each.get_mut(fill.group().number) else {
            return true;
        };
        own.make_room(fill, evicted)
    }

    /// Keeps a value that was found, in the cache of its group.
    #[tactic(auto, using(crate::proofs::Placing::in_place_set))]
    pub fn add(&mut self, fill: &Fill<S>, evicted: &mut Evicted) -> Result<(), AllocError>
        ensures ok { OnOk result (self.new.each.items ≡ with_cache (added fill.now) fill.now.group self.old.each.items) }
        ensures err { OnErr result (self.new.each.items ≡ self.old.each.items) }
        ensures nothing { IfSome (slice_get self.old.each.items fill.now.group) (λ c. value_to_keep fill.now c ≡ None) → IsOk result }
    {
        let Some(cache) = self.each.get_mut(fill.group().number) else {
            return Ok(());
        };
        cache.add(fill, evicted)
    }
}
