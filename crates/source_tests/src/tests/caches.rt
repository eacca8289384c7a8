//! Caches: what stays and what goes, and a list that does the same.
use crate::tests::fills::{ECHO, FILL, SQUARE, fill, has_found};
use crate::tests::inputs::next;
use peer_source::{DemoSource, Fill, GroupId, MainCache};
use peer_view::ByteView;
use std::alloc::{AllocError, Global};
use std::hash::RandomState;
use std::io;
use std::num::NonZeroUsize;
use std::random::RandomSource;

// Gives zeros, so that each run has the same seed.
struct Zeros;

impl RandomSource for Zeros {
    fn fill_bytes(&self, buf: &mut [u8]) -> io::Result<()> {
        buf.fill(0);
        Ok(())
    }
}

// A cache without an entry.
fn cache_of(alloc: Global, group: GroupId, limit: u64) -> Option<MainCache<DemoSource>> {
    MainCache::new(alloc, group, limit, RandomState::new(&Zeros).ok()?).ok()
}

// A cache of `echo` without an entry, of these bounds.
fn bounded_cache_of(
    alloc: Global,
    limit: u64,
    most: usize,
    each: u64,
) -> Option<MainCache<DemoSource>> {
    let most = NonZeroUsize::new(most)?;
    let seed = RandomState::new(&Zeros).ok()?;
    MainCache::bounded(alloc, ECHO, limit, most, each, seed).ok()
}

// Whether a fill was added. What leaves the cache is let go.
fn keeps(alloc: Global, cache: &mut MainCache<DemoSource>, fill: &Fill<DemoSource>) -> bool {
    cache.add(fill, &mut Vec::new(alloc)).is_ok()
}

// Whether the fill of this key was added.
fn adds(
    alloc: Global,
    cache: &mut MainCache<DemoSource>,
    group: GroupId,
    key: &'static [u8],
) -> bool {
    keeps(alloc, cache, &fill(alloc, group, key))
}

// Whether the fills of `echo` for keys of one byte were added.
fn adds_letters(alloc: Global, cache: &mut MainCache<DemoSource>, letters: &'static [u8]) -> bool {
    let mut all = true;
    for letter in letters.chunks(1) {
        all &= adds(alloc, cache, ECHO, letter);
    }
    all
}

// Whether a get finds this value for the key.
fn finds(cache: &mut MainCache<DemoSource>, key: &'static [u8], value: &[u8]) -> bool {
    match cache.get(key) {
        Ok(Some(fill)) => fill.key().eq_bytes(key) && has_found(&fill, value),
        _ => false,
    }
}

// Whether the key is not there.
fn lacks(cache: &mut MainCache<DemoSource>, key: &[u8]) -> bool {
    match cache.get(key) {
        Ok(None) => true,
        _ => false,
    }
}

// Whether there are so many entries, of so many bytes, and none only where it says so.
fn has(cache: &MainCache<DemoSource>, entries: usize, bytes: u64) -> bool {
    cache.len() == entries && cache.bytes() == bytes && cache.is_empty() == (entries == 0)
}

// What is done with a cache, and what is to be seen of it.
#[derive(Clone, Copy)]
enum Step {
    // The fills of `echo` for keys of one byte are added.
    Letters(&'static [u8]),
    // The fill of a group for a key is added.
    Fill(GroupId, &'static [u8]),
    // There are so many entries, of so many bytes.
    Has(usize, u64),
    // A get finds this value for the key.
    Finds(&'static [u8], &'static [u8]),
    // The key is not there.
    Lacks(&'static [u8]),
}

// Whether the step went so.
fn goes(alloc: Global, cache: &mut MainCache<DemoSource>, step: Step) -> bool {
    match step {
        Step::Letters(letters) => adds_letters(alloc, cache, letters),
        Step::Fill(group, key) => adds(alloc, cache, group, key),
        Step::Has(entries, bytes) => has(cache, entries, bytes),
        Step::Finds(key, value) => finds(cache, key, value),
        Step::Lacks(key) => lacks(cache, key),
    }
}

// Whether all steps of a new cache went so.
fn all_go(alloc: Global, group: GroupId, limit: u64, steps: &[Step]) -> bool {
    match cache_of(alloc, group, limit) {
        Some(cache) => all_go_in(alloc, cache, steps),
        None => false,
    }
}

// Whether all steps of a new cache of `echo` went so, which has these bounds.
fn all_go_within(alloc: Global, limit: u64, most: usize, each: u64, steps: &[Step]) -> bool {
    match bounded_cache_of(alloc, limit, most, each) {
        Some(cache) => all_go_in(alloc, cache, steps),
        None => false,
    }
}

// Whether all steps of this cache went so.
fn all_go_in(alloc: Global, mut cache: MainCache<DemoSource>, steps: &[Step]) -> bool {
    let mut all = true;
    for step in steps {
        all &= goes(alloc, &mut cache, *step);
    }
    cache.law();
    all
}

#[test]
fn the_last_used_stay_within_the_limit(rt: HostRuntime) {
    let alloc = rt.alloc();
    // The last used stay.
    let steps = [
        Step::Letters(b"abc"),
        Step::Has(2, 4),
        Step::Lacks(b"a"),
        Step::Finds(b"b", b"b"),
    ];
    assert!(rt; all_go(alloc, ECHO, 4, &steps));
    // A get changes which one goes.
    let steps = [
        Step::Letters(b"ab"),
        Step::Finds(b"a", b"a"),
        Step::Letters(b"c"),
        Step::Lacks(b"b"),
        Step::Finds(b"a", b"a"),
    ];
    assert!(rt; all_go(alloc, ECHO, 4, &steps));
    // At limit 0 nothing stays.
    let steps = [Step::Letters(b"a"), Step::Fill(ECHO, b""), Step::Has(0, 0)];
    assert!(rt; all_go(alloc, ECHO, 0, &steps));
    // An entry over the limit leaves none.
    let steps = [
        Step::Letters(b"ab"),
        Step::Fill(ECHO, b"abc"),
        Step::Has(0, 0),
        Step::Lacks(b"abc"),
    ];
    assert!(rt; all_go(alloc, ECHO, 4, &steps));
}

#[test]
fn a_bounded_cache_spares_what_it_has(rt: HostRuntime) {
    let alloc = rt.alloc();
    // Each entry counts 6 bytes more, and one over the limit changes nothing.
    let steps = [
        Step::Letters(b"abc"),
        Step::Has(2, 16),
        Step::Lacks(b"a"),
        Step::Fill(ECHO, b"abcdef"),
        Step::Has(2, 16),
        Step::Lacks(b"abcdef"),
        Step::Finds(b"b", b"b"),
    ];
    assert!(rt; all_go_within(alloc, 16, 100, 6, &steps));
    // There are no more entries than there may be.
    let steps = [Step::Letters(b"abc"), Step::Has(2, 4), Step::Lacks(b"a")];
    assert!(rt; all_go_within(alloc, 100, 2, 0, &steps));
}

#[test]
fn a_bounded_cache_counts_the_blocks_of_long_texts(rt: HostRuntime) {
    // Keys of 46 and of 47 bytes, each its own value. An entry counts 6 bytes more, and a block 3.
    let steps = [
        Step::Fill(ECHO, b"a short key of 46 bytes is held by its own vie"),
        Step::Has(1, 98),
        Step::Fill(ECHO, b"a longer key of 47 bytes has a block of its own"),
        Step::Has(2, 204),
    ];
    assert!(rt; all_go_within(rt.alloc(), 1000, 100, 6, &steps));
}

#[test]
fn only_values_of_the_group_are_kept_and_counted_once(rt: HostRuntime) {
    let alloc = rt.alloc();
    // An entry of the limit stays.
    let steps = [
        Step::Letters(b"a"),
        Step::Fill(ECHO, b"de"),
        Step::Has(1, 4),
        Step::Finds(b"de", b"de"),
    ];
    assert!(rt; all_go(alloc, ECHO, 4, &steps));
    // Errors are not kept.
    let steps = [
        Step::Fill(SQUARE, b"x"),
        Step::Has(0, 0),
        Step::Fill(SQUARE, b"12"),
        Step::Finds(b"12", b"144"),
    ];
    assert!(rt; all_go(alloc, SQUARE, 100, &steps));
    // Another group is not kept.
    let steps = [
        Step::Fill(ECHO, b"7"),
        Step::Fill(SQUARE, b"7"),
        Step::Has(1, 2),
        Step::Finds(b"7", b"7"),
    ];
    assert!(rt; all_go(alloc, ECHO, 100, &steps));
    // A key is counted once.
    let steps = [
        Step::Letters(b"aba"),
        Step::Has(2, 4),
        Step::Letters(b"c"),
        Step::Lacks(b"b"),
    ];
    assert!(rt; all_go(alloc, ECHO, 4, &steps));
}

// The bytes of the entries for these digits in a cache of `fill`, where a digit's value is so many bytes.
fn bytes_for(digits: &[u8]) -> u64 {
    let mut bytes: u64 = 0;
    for digit in digits {
        bytes = bytes.wrapping_add(1 + u64::from(*digit));
    }
    bytes
}

// Takes the digit out of the list, and says whether it was there.
fn take_out(digits: &mut Vec<u8>, digit: u8) -> bool {
    for index in 0..digits.len() {
        if digits[index] == digit {
            digits.remove(index);
            return true;
        }
    }
    false
}

// Puts the digit first, and takes the last ones out until their entries fit.
fn put_first(digits: &mut Vec<u8>, digit: u8, limit: u64) -> Result<(), AllocError> {
    let _was_there = take_out(digits, digit);
    digits.insert(0, digit)?;
    for _ in 0..digits.len() {
        if bytes_for(digits) > limit {
            let _last = digits.pop();
        }
    }
    Ok(())
}

const LIMIT: u64 = 20;

// Whether the cache, to which a fill of `fill` is added, still agrees with the list.
fn adds_digit(
    alloc: Global,
    cache: &mut MainCache<DemoSource>,
    digits: &mut Vec<u8>,
    digit: u8,
) -> Result<bool, AllocError> {
    let key = ByteView::copy_of(alloc, &[b'0'.wrapping_add(digit)])?;
    let added = keeps(alloc, cache, &Fill::run(alloc, &DemoSource, FILL, key));
    put_first(digits, digit, LIMIT)?;
    Ok(added && has(cache, digits.len(), bytes_for(digits)))
}

// Whether the cache finds the digit where the list has it.
fn gets_digit(
    cache: &mut MainCache<DemoSource>,
    digits: &mut Vec<u8>,
    digit: u8,
) -> Result<bool, AllocError> {
    let is_missing = lacks(cache, &[b'0'.wrapping_add(digit)]);
    let was_there = take_out(digits, digit);
    if was_there {
        digits.insert(0, digit)?;
    }
    Ok(was_there != is_missing && has(cache, digits.len(), bytes_for(digits)))
}

// Whether a cache and a list agree for so many steps.
fn agree_for(alloc: Global, steps: u32) -> Result<bool, AllocError> {
    let Some(mut cache) = cache_of(alloc, FILL, LIMIT) else {
        return Ok(false);
    };
    let mut digits = Vec::new(alloc);
    let mut state = 1;
    for _ in 0..steps {
        let drawn = next(&mut state);
        let digit = ((drawn >> 7) % 10) as u8;
        let agree = if (drawn >> 27) % 2 == 0 {
            adds_digit(alloc, &mut cache, &mut digits, digit)?
        } else {
            gets_digit(&mut cache, &mut digits, digit)?
        };
        if !agree {
            return Ok(false);
        }
    }
    Ok(true)
}

#[test]
fn a_list_does_the_same(rt: HostRuntime) {
    assert!(rt; agree_for(rt.alloc(), 400) == Ok(true));
}
