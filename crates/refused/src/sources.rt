//! Fills of the source for demonstrations, and caches of them.

use crate::seen::Seen;
use crate::window;
use peer_source::{DemoSource, Evicted, Fill, GroupId, MainCache, Outcome, Source};
use peer_view::ByteView;
use std::alloc::{AllocError, Global};
use std::num::NonZeroUsize;
use test_support::seed;

/// The group whose values are the keys.
pub const ECHO: GroupId = GroupId { number: 0 };

/// The group of squares.
pub const SQUARE: GroupId = GroupId { number: 1 };

/// The group of so many letters.
pub const FILL: GroupId = GroupId { number: 2 };

/// A fill, where memory is there.
pub fn fill_of(alloc: Global, group: GroupId, key: &[u8]) -> Option<Fill<DemoSource>> {
    let key = ByteView::copy_of(alloc, key).ok()?;
    let fill = Fill::run(alloc, &DemoSource, group, key);
    match fill.outcome() {
        Outcome::NoMemory => return None,
        Outcome::Found(_) | Outcome::Failed(_) => {}
    }
    Some(fill)
}

/// Whether a fill found this value.
pub fn finds<S: Source>(fill: &Fill<S>, value: &[u8]) -> bool {
    match fill.outcome() {
        Outcome::Found(found) => found.eq_bytes(value),
        _ => false,
    }
}

/// `Fill::run`, where this value or the text of this error is wanted.
pub fn run(alloc: Global, group: GroupId, key: &[u8], wanted: &[u8]) -> Option<Seen> {
    let view = ByteView::copy_of(alloc, key).ok()?;
    window::begin(alloc);
    let fill = Fill::run(alloc, &DemoSource, group, view);
    window::end(alloc);
    let seen = match fill.outcome() {
        Outcome::Found(found) => Seen::Answered.only_if(found.eq_bytes(wanted), "another value"),
        Outcome::Failed(text) => Seen::Answered.only_if(text.eq_bytes(wanted), "another error"),
        Outcome::NoMemory => Seen::Refused,
    };
    let placed = fill.group() == group && fill.key().eq_bytes(key);
    Some(seen.only_if(placed, "a fill of another group or key"))
}

/// `Fill::share`.
pub fn share(alloc: Global) -> Option<Seen> {
    let fill = fill_of(alloc, ECHO, b"k")?;
    window::begin(alloc);
    let shared = fill.share();
    window::end(alloc);
    let seen = match shared {
        Ok(shared) => Seen::Answered.only_if(finds(&shared, b"k"), "another value"),
        Err(AllocError) => Seen::Refused,
    };
    Some(seen.only_if(finds(&fill, b"k"), "the fill changed"))
}

/// `MainCache::new`.
pub fn cache_new(alloc: Global) -> Option<Seen> {
    let seed = seed()?;
    window::begin(alloc);
    let cache = MainCache::<DemoSource>::new(alloc, ECHO, 4, seed);
    window::end(alloc);
    Some(match cache {
        Ok(cache) => Seen::Answered.only_if(cache.len() == 0 && cache.bytes() == 0, "not empty"),
        Err(AllocError) => Seen::Refused,
    })
}

// `MainCache::add`, of which only the answer is told.
fn add(
    cache: &mut MainCache<DemoSource>,
    fill: &Fill<DemoSource>,
    evicted: &mut Evicted,
) -> Result<(), AllocError> {
    cache.add(fill, evicted)
}

// Adds a letter, where memory is there.
fn keep(alloc: Global, cache: &mut MainCache<DemoSource>, letter: u8) -> Option<()> {
    let fill = fill_of(alloc, ECHO, &[letter])?;
    add(cache, &fill, &mut Vec::new(alloc)).ok()
}

// The same for these letters.
fn keep_all(alloc: Global, cache: &mut MainCache<DemoSource>, letters: &[u8]) -> Option<()> {
    for letter in letters {
        keep(alloc, cache, *letter)?;
    }
    Some(())
}

/// A cache of `echo` with room for two keys of one letter, to which these were added.
pub fn cache_with(alloc: Global, letters: &[u8]) -> Option<MainCache<DemoSource>> {
    let mut cache = MainCache::new(alloc, ECHO, 4, seed()?).ok()?;
    keep_all(alloc, &mut cache, letters)?;
    Some(cache)
}

// Whether a cache gives this letter for itself, or none where it gives nothing.
fn gives(cache: &mut MainCache<DemoSource>, letter: u8) -> Result<Option<bool>, AllocError> {
    match cache.get(&[letter]) {
        Ok(Some(fill)) => Ok(Some(finds(&fill, &[letter]))),
        Ok(None) => Ok(None),
        Err(AllocError) => Err(AllocError),
    }
}

// Whether a cache keeps this letter and not the other.
fn keeps(cache: &mut MainCache<DemoSource>, one: u8, other: u8) -> Option<bool> {
    let kept = gives(cache, one).ok()?;
    let gone = gives(cache, other).ok()?;
    Some(kept == Some(true) && gone.is_none() && cache.len() == 2 && cache.bytes() == 4)
}

// `MainCache::get` of `a`, with growths counted.
fn get_seen(alloc: Global, cache: &mut MainCache<DemoSource>) -> Seen {
    window::begin(alloc);
    let got = gives(cache, b'a');
    window::end(alloc);
    match got {
        Ok(Some(found)) => Seen::Answered.only_if(found, "another value"),
        Ok(None) => Seen::Wrong("the value was not there"),
        Err(AllocError) => Seen::Refused,
    }
}

// What was seen, if the cache keeps this letter and not the other.
fn only_if_kept(
    seen: Seen,
    cache: &mut MainCache<DemoSource>,
    [one, other]: [u8; 2],
    wrong: &'static str,
) -> Option<Seen> {
    Some(seen.only_if(keeps(cache, one, other)?, wrong))
}

/// `MainCache::get`. The entry comes to the front only where its fill is given: else it is the next to go.
pub fn cache_get(alloc: Global) -> Option<Seen> {
    let mut cache = cache_with(alloc, b"ab")?;
    let seen = get_seen(alloc, &mut cache);
    keep(alloc, &mut cache, b'c')?;
    match seen {
        Seen::Answered => only_if_kept(seen, &mut cache, *b"ab", "it is not in front"),
        Seen::Refused => only_if_kept(seen, &mut cache, *b"ba", "the order changed"),
        Seen::Prepared | Seen::Wrong(_) => Some(seen),
    }
}

// `MainCache::add` of `c`, with growths counted.
fn add_seen(alloc: Global, cache: &mut MainCache<DemoSource>) -> Option<Seen> {
    let fill = fill_of(alloc, ECHO, b"c")?;
    let mut evicted = Vec::with_capacity(alloc, 4).ok()?;
    window::begin(alloc);
    let added = add(cache, &fill, &mut evicted);
    window::end(alloc);
    Some(match added {
        Ok(()) => Seen::Answered,
        Err(AllocError) => Seen::Refused,
    })
}

/// `MainCache::add`, where another entry has to go.
pub fn cache_add(alloc: Global) -> Option<Seen> {
    let mut cache = cache_with(alloc, b"ab")?;
    let seen = add_seen(alloc, &mut cache)?;
    match seen {
        Seen::Answered => only_if_kept(seen, &mut cache, *b"ca", "not what was added"),
        Seen::Refused => only_if_kept(seen, &mut cache, *b"ac", "the cache changed"),
        Seen::Prepared | Seen::Wrong(_) => Some(seen),
    }
}

// How many entries are added to one cache.
const MANY: u8 = 100;

// Adds many letters to a cache, with growths counted, and says how many were refused, or none where an add that was
// refused changed what is counted, or another did not.
fn add_many(
    cache: &mut MainCache<DemoSource>,
    fills: &[Fill<DemoSource>],
    evicted: &mut Evicted,
) -> Option<u64> {
    let mut refused: u64 = 0;
    for fill in fills {
        let (count, bytes) = (cache.len(), cache.bytes());
        let right = match add(cache, fill, evicted) {
            Ok(()) => (count.wrapping_add(1), bytes.wrapping_add(2)),
            Err(AllocError) => {
                refused = refused.wrapping_add(1);
                (count, bytes)
            }
        };
        if (cache.len(), cache.bytes()) != right {
            return None;
        }
    }
    Some(refused)
}

// Fills of many letters.
fn many_fills(alloc: Global) -> Option<Vec<Fill<DemoSource>>> {
    let mut fills = Vec::new(alloc);
    for letter in 0..MANY {
        fills.push(fill_of(alloc, ECHO, &[letter])?).ok()?;
    }
    Some(fills)
}

/// `MainCache::add`, so often that the map of the keys grows.
pub fn cache_grows(alloc: Global) -> Option<Seen> {
    let fills = many_fills(alloc)?;
    let mut evicted = Vec::with_capacity(alloc, 4).ok()?;
    let mut cache = MainCache::new(alloc, ECHO, 1000, seed()?).ok()?;
    window::begin(alloc);
    let refused = add_many(&mut cache, &fills, &mut evicted);
    window::end(alloc);
    Some(Seen::of_many(MANY, refused, cache.len() as u64))
}

// A cache of `echo` in its bounded form, with room for two keys of one letter.
fn bounded(alloc: Global) -> Result<MainCache<DemoSource>, AllocError> {
    let seed = seed().ok_or(AllocError)?;
    MainCache::bounded(alloc, ECHO, 4, NonZeroUsize::MIN.saturating_add(1), 0, seed)
}

/// `MainCache::bounded`.
pub fn cache_bounded(alloc: Global) -> Option<Seen> {
    window::begin(alloc);
    let cache = bounded(alloc);
    window::end(alloc);
    Some(match cache {
        Ok(cache) => Seen::Answered.only_if(cache.len() == 0 && cache.bytes() == 0, "not empty"),
        Err(AllocError) => Seen::Refused,
    })
}

// A cache in its bounded form that has `a` and `b`, of which `b` was used last.
fn bounded_with_two(alloc: Global) -> Option<MainCache<DemoSource>> {
    let mut cache = bounded(alloc).ok()?;
    keep_all(alloc, &mut cache, b"ab")?;
    Some(cache)
}

/// `MainCache::find` of `a`, which comes to the front in any case.
pub fn cache_find(alloc: Global) -> Option<Seen> {
    let mut cache = bounded_with_two(alloc)?;
    window::begin(alloc);
    let found = cache.find(b"a");
    window::end(alloc);
    let seen = match found {
        Ok(Some(fill)) => Seen::Answered.only_if(finds(&fill, b"a"), "another value"),
        Ok(None) => Seen::Wrong("the value was not there"),
        Err(AllocError) => Seen::Refused,
    };
    keep(alloc, &mut cache, b'c')?;
    only_if_kept(seen, &mut cache, *b"ab", "it is not in front")
}

/// `MainCache::make_room` for `c`, which lets `a` go.
pub fn cache_make_room(alloc: Global) -> Option<Seen> {
    let mut cache = bounded_with_two(alloc)?;
    let fill = fill_of(alloc, ECHO, b"c")?;
    let mut evicted = Vec::with_capacity(alloc, 4).ok()?;
    window::begin(alloc);
    let fits = cache.make_room(&fill, &mut evicted);
    window::end(alloc);
    let seen = Seen::Answered.only_if(fits && evicted.len() == 1, "it does not fit");
    keep(alloc, &mut cache, b'c')?;
    only_if_kept(seen, &mut cache, *b"ca", "not the oldest went")
}
