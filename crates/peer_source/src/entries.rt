//! The entries of a cache, on the toolchain's `lru`: how one is put first, and how those behind it make room (`lru/lru.go`).
//! Each function says what it leaves, and counts the bytes that are left.
ghost use Rattle.std.specs.Map.{lookup, lookup_entry};
ghost use Rattle.std.specs.Prelude.{◌≡◌, None, bytes_eq, ◌+◌, ◌-◌, ◌<◌, ◌≤◌, [], ◌∷◌, ◌++◌, length};
ghost use Rattle.std.specs.Prelude.{Some, take, drop, IfSome, IfNone, IfOk, IsOk, OnOk, OnErr};
ghost use Rattle.std.specs.NonZero.{non_zero_usize_get};
ghost use Rattle.lru.specs.LruCache.{lru_cache, promoted};
ghost use Rattle.peer_source.specs.Caches.{IsFrontOf, block_of, bytes_of, bytes_in, fitting, without};

use crate::lent_key::LentKey;
use lru::LruCache;
use peer_view::{ByteView, SHORT};
use std::alloc::{AllocError, Global};
use std::hash::RandomState;
use std::num::NonZeroUsize;

/// The entries of a cache, the most recently used first.
pub(crate) type Entries = LruCache<ByteView, ByteView, RandomState>;

/// No entries, and room for none yet. The seed is that of the map.
pub(crate) fn no_entries(
    alloc: Global,
    most: NonZeroUsize,
    seed: RandomState,
) -> Result<Entries, AllocError>
    ensures { IfOk result (λ entries. entries ≡ lru_cache [] (non_zero_usize_get most)) }
{
    let mut entries = LruCache::unbounded_with_hasher(alloc, seed)?;
    entries.resize(most);
    Ok(entries)
}

/// The value of the entry with this key. All stay where they are.
pub(crate) fn look_up<'a>(entries: &'a Entries, key: &[u8]) -> Option<&'a ByteView>
    ensures none { IfNone result (lookup (bytes_eq key.now) entries.now.entries ≡ None) }
    ensures value { IfSome result (λ value. Some value.now ≡ lookup (bytes_eq key.now) entries.now.entries) }
{
    let value = entries.peek(LentKey::of(key))?;
    Some(value)
}

/// Brings the entry with this key to the front, if there is one.
pub(crate) fn bring_to_front(entries: &mut Entries, key: &[u8])
    ensures { entries.new ≡ lru_cache (promoted (bytes_eq key.now) entries.old.entries) entries.old.cap }
{
    let _there = entries.promote(LentKey::of(key));
}

/// A key and its value.
pub(crate) type Entry = (ByteView, ByteView);

// An entry that shares the key and the value.
fn share(key: &ByteView, value: &ByteView) -> Result<Entry, AllocError>
    ensures { IfOk result (λ entry. entry ≡ (key.now, value.now)) }
{
    let key = key.share()?;
    let value = value.share()?;
    Ok((key, value))
}

/// The entry with this key, which comes to the front, also where memory refuses to share it. The first entry is found
/// without a hash, and any other with one.
pub(crate) fn find(entries: &mut Entries, key: &[u8]) -> Result<Option<Entry>, AllocError>
    ensures front { entries.new ≡ lru_cache (promoted (bytes_eq key.now) entries.old.entries) entries.old.cap }
    ensures found { IfOk result (λ found. found ≡ lookup_entry (bytes_eq key.now) entries.old.entries) }
    ensures missing { lookup_entry (bytes_eq key.now) entries.old.entries ≡ None → IsOk result }
{
    if let Some((first, value)) = entries.peek_mru() {
        if first.as_slice() == key {
            return Ok(Some(share(first, value)?));
        }
    }
    let Some((own_key, value)) = entries.get_key_value(LentKey::of(key)) else {
        return Ok(None);
    };
    Ok(Some(share(own_key, value)?))
}

// What is counted for a key or a value beside its bytes.
fn block_of(each: u64, text: &ByteView) -> u64
    ensures { result ≡ block_of each text.now }
{
    if text.len() <= SHORT { 0 } else { each / 2 }
}

/// What an entry leaves of the limit, if it is not larger.
pub(crate) fn room_beside(limit: u64, each: u64, key: &ByteView, value: &ByteView) -> Option<u64>
    ensures room { IfSome result (λ room. room + bytes_of each (key.now, value.now) ≡ limit) }
    ensures larger { IfNone result (limit < bytes_of each (key.now, value.now)) }
{
    limit
        .checked_sub(each)?
        .checked_sub(key.len() as u64)?
        .checked_sub(block_of(each, key))?
        .checked_sub(value.len() as u64)?
        .checked_sub(block_of(each, value))
}

/// Entries that left a cache, as many as there is room for. What has no room in it is let go at once.
pub type Evicted = Vec<(ByteView, ByteView)>;

// Keeps an entry that left the cache, where there is room for it.
fn set_aside(entry: Entry, evicted: &mut Evicted) {
    if evicted.len() < evicted.capacity() {
        let _ = evicted.push(entry);
    }
}

// The bytes without those of an entry.
fn bytes_without(bytes: u64, each: u64, entry: Entry, evicted: &mut Evicted) -> u64
    requires { bytes_of each entry ≤ bytes }
    ensures { result + bytes_of each entry ≡ bytes }
{
    let (key, value) = &entry;
    let rest = bytes - each - key.len() as u64 - block_of(each, key);
    let rest = rest - value.len() as u64 - block_of(each, value);
    set_aside(entry, evicted);
    rest
}

/// Removes entries from the end until the others fit the room, or the list of those that left is full. Says how many bytes are
/// left.
pub(crate) fn make_way(
    entries: &mut Entries,
    mut bytes: u64,
    each: u64,
    room: u64,
    evicted: &mut Evicted,
) -> u64
    requires bytes { bytes ≡ bytes_in each entries.old.entries }
    requires most { length entries.old.entries ≤ entries.old.cap }
    ensures bytes { result ≡ bytes_in each entries.new.entries }
    ensures front { IsFrontOf entries.old entries.new }
    ensures fits { fitting each room (take (entries.old.cap - 1) entries.new.entries)
        ≡ fitting each room (take (entries.old.cap - 1) entries.old.entries) }
{
    while bytes > room && evicted.len() < evicted.capacity() {
        let Some(oldest) = entries.pop_lru() else {
            break;
        };
        bytes = bytes_without(bytes, each, oldest, evicted);
    }
    bytes
}

/// Whether an entry for this key takes the place of the last one: there are as many as there may be, and none has the key.
pub(crate) fn takes_a_place(entries: &Entries, key: &ByteView) -> bool {
    entries.len() >= entries.cap().get() && !entries.contains(LentKey::of(key.as_slice()))
}

/// Puts an entry before the others, and says how many bytes these take.
pub(crate) fn put_in_front(
    entries: &mut Entries,
    bytes: u64,
    each: u64,
    key: ByteView,
    value: ByteView,
    evicted: &mut Evicted,
) -> Result<u64, AllocError>
    requires bytes { bytes ≡ bytes_in each entries.old.entries }
    requires most { length entries.old.entries ≤ entries.old.cap }
    requires some { 0 < entries.old.cap }
    ensures front { OnOk result (entries.new ≡ lru_cache (take entries.old.cap ((key, value) ∷ without key entries.old.entries))
        entries.old.cap) }
    ensures others { IfOk result (λ others. others + bytes_of each (key, value) ≡ bytes_in each entries.new.entries) }
    ensures err { OnErr result (entries.new ≡ entries.old) }
{
    let Ok(displaced) = entries.push(key, value) else {
        return Err(AllocError);
    };
    match displaced {
        Some(entry) => Ok(bytes_without(bytes, each, entry, evicted)),
        None => Ok(bytes),
    }
}

/// Removes entries from the end until those behind the first fit the room, and says how many bytes these take.
pub(crate) fn evict(
    entries: &mut Entries,
    mut others: u64,
    each: u64,
    room: u64,
    evicted: &mut Evicted,
) -> u64
    requires others { others ≡ bytes_in each (drop 1 entries.old.entries) }
    ensures entries { entries.new
        ≡ lru_cache (take 1 entries.old.entries ++ fitting each room (drop 1 entries.old.entries)) entries.old.cap }
    ensures others { result ≡ bytes_in each (fitting each room (drop 1 entries.old.entries)) }
    ensures fits { result ≤ room }
{
    while others > room {
        let Some(entry) = entries.pop_lru() else {
            break;
        };
        others = bytes_without(others, each, entry, evicted);
    }
    others
}

/// Removes all entries.
pub(crate) fn remove_all(entries: &mut Entries, evicted: &mut Evicted)
    ensures { entries.new ≡ lru_cache [] entries.old.cap }
{
    while let Some(entry) = entries.pop_lru() {
        set_aside(entry, evicted);
    }
}
