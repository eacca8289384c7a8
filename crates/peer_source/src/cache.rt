//! The main cache of a group: the values used last, up to a limit in bytes (`cache` of `groupcache.go`).
//!
//! It stands on a map by use (`entries`). A get gives a fill of the cache's group and of the key, or none.
ghost use Rattle.std.specs.Prelude.{◌≡◌, ◌==◌, ◌<◌, ◌≤◌, [], None, IfOk, IfSome, OnOk, OnErr, IsOk};
ghost use Rattle.std.specs.Prelude.{All, length, bytes_eq};
ghost use Rattle.std.specs.List.{IsDistinct};
ghost use Rattle.std.specs.Map.{keys_of};
ghost use Rattle.std.specs.NonZero.{non_zero_usize_get};
ghost use Rattle.peer_source.specs.Caches.{IsAnswer, added, bounded_cache, bytes_in, brought_to_front, empty_cache, fill_of};
ghost use Rattle.peer_source.specs.Caches.{looked_up, put_first, value_to_keep, IsSameCache, LeavesRoom};

use crate::entries::{
    Entries, Evicted, bring_to_front, evict, find, look_up, make_way, no_entries, put_in_front,
    remove_all, room_beside, takes_a_place,
};
use crate::fill::{Fill, Outcome};
use crate::group::GroupId;
use crate::lost::Lost;
use crate::source::Source;
use peer_view::ByteView;
use std::alloc::{AllocError, Global};
use std::hash::RandomState;
use std::marker::{Model, PhantomData};
use std::num::NonZeroUsize;

/// The most entries of a cache as groupcache has it.
pub const MAX_ENTRIES: usize = 4096;

/// The values used last for the keys of a group. The bytes of an entry are those of its key and of its value, and as many
/// more as the cache counts for an entry, and half as many for each of the two that has a block of its own.
#[derive(Drop)]
pub struct MainCache<S: Source> {
    alloc: Global,
    group: GroupId,
    limit: u64,
    each: u64,
    clears: bool,
    bytes: u64,
    entries: Entries,
    lost: Lost,
    of: PhantomData<S>,
}

impl<S: Source> Model for MainCache<S> {
    ghost use Rattle.peer_source.specs.Caches.{Cache, Keeps};

    ghost Value = { Cache };

    ghost view = { λ c. record {
      group = c.group.number;
      limit = c.limit;
      most = c.entries.cap;
      each = c.each;
      clears = c.clears;
      entries = c.entries.entries;
    } };

    ghost invariant = { λ c. Keeps S.allowed c.group.number c.limit c.each c.bytes c.entries };
}

impl<S: Source> MainCache<S> {
    /// A cache for a group without an entry, as groupcache has it: it keeps at most so many bytes, and at 0 nothing, and at
    /// most 4,096 entries, and an entry larger than the limit empties it. The seed is for the map of its keys, which peers
    /// choose.
    pub fn new(
        alloc: Global,
        group: GroupId,
        limit: u64,
        seed: RandomState,
    ) -> Result<MainCache<S>, AllocError>
        ensures { IfOk result (λ c. c ≡ empty_cache group.number limit) }
    {
        let most = NonZeroUsize::new(MAX_ENTRIES).unwrap();
        Ok(MainCache {
            alloc,
            group,
            limit,
            each: 0,
            clears: true,
            bytes: 0,
            entries: no_entries(alloc, most, seed)?,
            lost: Lost::NONE,
            of: PhantomData,
        })
    }

    /// A cache for a group without an entry, of these bounds: it keeps at most so many bytes, and at 0 nothing, and at most so
    /// many entries. For each entry it counts so many bytes beside those of the key and the value, and half as many for each of
    /// the two that its view does not hold itself. An entry larger than
    /// the limit changes nothing.
    pub fn bounded(
        alloc: Global,
        group: GroupId,
        limit: u64,
        most: NonZeroUsize,
        each: u64,
        seed: RandomState,
    ) -> Result<MainCache<S>, AllocError>
        ensures { IfOk result (λ c. c ≡ bounded_cache group.number limit (non_zero_usize_get most) each) }
    {
        Ok(MainCache {
            alloc,
            group,
            limit,
            each,
            clears: false,
            bytes: 0,
            entries: no_entries(alloc, most, seed)?,
            lost: Lost::NONE,
            of: PhantomData,
        })
    }

    /// The fill of the entry with this key, which comes to the front. The fill shares the value. Where memory is refused, all
    /// stay where they are, for which the map is looked into twice.
    pub fn get(&mut self, key: &[u8]) -> Result<Option<Fill<S>>, AllocError>
        ensures fill { IfOk result (λ fill. fill ≡ fill_of key.now self.old) }
        ensures front { OnOk result (self.new ≡ brought_to_front key.now self.old) }
        ensures err { OnErr result (self.new ≡ self.old) }
        ensures missing { looked_up key.now self.old ≡ None → IsOk result }
        ensures same { IsSameCache self.old self.new }
    {
        let Some(value) = look_up(&self.entries, key) else {
            return Ok(None);
        };
        let own_key = ByteView::copy_of(self.alloc, key)?;
        let fill = Fill::of_value(self.group, own_key, value.share()?);
        bring_to_front(&mut self.entries, key);
        Ok(Some(fill))
    }

    /// The fill of the entry with this key, which shares the key and the value. The map is looked into once, so the entry comes
    /// to the front also where memory refuses to share it.
    pub fn find(&mut self, key: &[u8]) -> Result<Option<Fill<S>>, AllocError>
        ensures fill { IfOk result (λ fill. fill ≡ fill_of key.now self.old) }
        ensures front { self.new ≡ brought_to_front key.now self.old }
        ensures missing { looked_up key.now self.old ≡ None → IsOk result }
        ensures same { IsSameCache self.old self.new }
    {
        let Some((own_key, value)) = find(&mut self.entries, key)? else {
            return Ok(None);
        };
        Ok(Some(Fill::of_value(self.group, own_key, value)))
    }

    // What the entry of this fill leaves of the limit, if others have to go for it: its key has no entry yet.
    fn room_for(&self, fill: &Fill<S>) -> Option<u64>
        ensures { IfSome result (λ room. LeavesRoom fill.now self.now room) }
    {
        let Outcome::Found(value) = fill.outcome() else {
            return None;
        };
        let is_ours = fill.group() == self.group && self.limit > 0;
        if !is_ours {
            return None;
        }
        let key = fill.key();
        let room = room_beside(self.limit, self.each, key, value)?;
        if self.bytes <= room || look_up(&self.entries, key.as_slice()).is_some() {
            return None;
        }
        Some(room)
    }

    /// Lets entries go for this fill, those used last of all first, until it fits or the list of those that left is full. They
    /// are entries that adding it would evict. Whether it fits by now.
    pub fn make_room(&mut self, fill: &Fill<S>, evicted: &mut Evicted) -> bool
        ensures gives { added fill.now self.new ≡ added fill.now self.old }
        ensures same { IsSameCache self.old self.new }
    {
        let Some(room) = self.room_for(fill) else {
            return true;
        };
        let (bytes, before) = (self.bytes, self.entries.len());
        self.bytes = make_way(&mut self.entries, bytes, self.each, room, evicted);
        self.lost
            .count(false, before.saturating_sub(self.entries.len()));
        self.bytes <= room
    }

    /// Keeps a value that was found for the group, and then the entries used last as far as they fit (`add` of
    /// `groupcache.go`). A fill of another group, one without a value, and any at limit 0 change nothing.
    pub fn add(&mut self, fill: &Fill<S>, evicted: &mut Evicted) -> Result<(), AllocError>
        ensures ok { OnOk result (self.new ≡ added fill.now self.old) }
        ensures err { OnErr result (self.new ≡ self.old) }
        ensures nothing { value_to_keep fill.now self.old ≡ None → IsOk result }
        ensures same { IsSameCache self.old self.new }
    {
        let Outcome::Found(kept) = fill.outcome() else {
            return Ok(());
        };
        if fill.group() != self.group || self.limit == 0 {
            return Ok(());
        }
        fill.law();
        self.put(fill.key(), kept, evicted)
    }

    // Puts an entry in front, and keeps what fits. One larger than the limit leaves nothing, or all as it was.
    fn put(
        &mut self,
        key: &ByteView,
        value: &ByteView,
        evicted: &mut Evicted,
    ) -> Result<(), AllocError>
        requires answer { IsAnswer S.allowed self.old.group (key.now, value.now) }
        requires on { 0 < self.old.limit }
        ensures ok { OnOk result (self.new ≡ put_first key.now value.now self.old) }
        ensures err { OnErr result (self.new ≡ self.old) }
    {
        let (bytes, each) = (self.bytes, self.each);
        let Some(room) = room_beside(self.limit, each, key, value) else {
            self.lost.count_too_large();
            if self.clears {
                remove_all(&mut self.entries, evicted);
                self.bytes = 0;
            }
            return Ok(());
        };
        let takes_a_place = takes_a_place(&self.entries, key);
        let (key, value) = (key.share()?, value.share()?);
        let others = put_in_front(&mut self.entries, bytes, each, key, value, evicted)?;
        let before = self.entries.len();
        self.bytes = evict(&mut self.entries, others, each, room, evicted) + (self.limit - room);
        self.lost
            .count(takes_a_place, before.saturating_sub(self.entries.len()));
        Ok(())
    }

    /// The bytes of the entries.
    pub fn bytes(&self) -> u64
        ensures { result ≡ bytes_in self.now.each self.now.entries }
    {
        self.bytes
    }

    /// What it has lost since it was made.
    pub fn lost(&self) -> Lost {
        self.lost
    }

    /// How many entries there are.
    pub fn len(&self) -> usize
        ensures { result ≡ length self.now.entries }
    {
        self.entries.len()
    }

    /// Whether there is no entry.
    pub fn is_empty(&self) -> bool
        ensures { result ≡ (length self.now.entries == 0) }
    {
        self.entries.is_empty()
    }

    /// The law of caches: what each of them keeps.
    pub fn law(&self)
        ensures within { bytes_in self.now.each self.now.entries ≤ self.now.limit }
        ensures most { length self.now.entries ≤ self.now.most }
        ensures off { self.now.limit ≡ 0 → self.now.entries ≡ [] }
        ensures once { IsDistinct bytes_eq (keys_of self.now.entries) }
        ensures answers { All (IsAnswer S.allowed self.now.group) self.now.entries }
    {
        let entries = &self.entries;
        let _length = entries.len();
    }
}
