//! The source for demonstrations, its fills and its names.
use crate::tests::inputs::view_of;
use peer_source::{DemoSource, Fill, GroupId, Names, Outcome, Source};
use std::alloc::Global;
use std::sync::atomic::AtomicU64;
use std::sync::atomic::Ordering::SeqCst;
use test_support::{Hook, Hooked};

pub const ECHO: GroupId = GroupId { number: 0 };

pub const SQUARE: GroupId = GroupId { number: 1 };

pub const FILL: GroupId = GroupId { number: 2 };

// Counts the calls of the source for demonstrations.
#[derive(Drop)]
struct Counting {
    calls: AtomicU64,
}

impl Hook for Counting {
    fn may_call(&self, _alloc: Global, _key: &[u8]) -> bool {
        self.calls.fetch_add(1, SeqCst);
        true
    }
}

/// A fill of the source for demonstrations.
pub fn fill(alloc: Global, group: GroupId, key: &'static [u8]) -> Fill<DemoSource> {
    Fill::run(alloc, &DemoSource, group, view_of(key))
}

/// Whether the fill found this value.
pub fn has_found(fill: &Fill<DemoSource>, value: &[u8]) -> bool {
    match fill.outcome() {
        Outcome::Found(found) => found.eq_bytes(value),
        _ => false,
    }
}

// Whether the fill failed with this text.
fn has_failed(fill: &Fill<DemoSource>, text: &[u8]) -> bool {
    match fill.outcome() {
        Outcome::Failed(failed) => failed.eq_bytes(text),
        _ => false,
    }
}

// Whether the group finds this value for the key.
fn finds(alloc: Global, group: GroupId, key: &'static [u8], value: &[u8]) -> bool {
    has_found(&fill(alloc, group, key), value)
}

// Whether the group fails with this text for the key.
fn fails(alloc: Global, group: GroupId, key: &'static [u8], text: &[u8]) -> bool {
    has_failed(&fill(alloc, group, key), text)
}

// Whether the fill is of `echo` and the key `k`.
fn is_asked(fill: &Fill<DemoSource>) -> bool {
    fill.group() == ECHO && fill.key().eq_bytes(b"k")
}

#[test]
fn echo_finds_the_key(rt: HostRuntime) {
    let fill = fill(rt.alloc(), ECHO, b"k");
    assert!(rt; is_asked(&fill) && has_found(&fill, b"k"));
}

#[test]
fn square_finds_the_square(rt: HostRuntime) {
    let alloc = rt.alloc();
    assert!(rt; finds(alloc, SQUARE, b"12", b"144"));
    assert!(rt; finds(alloc, SQUARE, b"007", b"49"));
    assert!(rt; finds(alloc, SQUARE, b"0", b"0"));
    assert!(rt; finds(alloc, SQUARE, b"999999999", b"999999998000000001"));
}

#[test]
fn square_takes_digits_alone(rt: HostRuntime) {
    for key in [b"x".as_slice(), b"+7", b"", b"1234567890"] {
        assert!(rt; fails(rt.alloc(), SQUARE, key, b"not a number"));
    }
}

// Whether these are so many letters `x`.
fn are_letters(bytes: &[u8], count: usize) -> bool {
    let mut all = bytes.len() == count;
    for byte in bytes {
        all &= *byte == b'x';
    }
    all
}

// Whether `fill` finds so many letters `x` for the key.
fn finds_letters(alloc: Global, key: &'static [u8], count: usize) -> bool {
    match fill(alloc, FILL, key).outcome() {
        Outcome::Found(found) => are_letters(found.as_slice(), count),
        _ => false,
    }
}

#[test]
fn fill_finds_letters_up_to_the_limit(rt: HostRuntime) {
    let alloc = rt.alloc();
    assert!(rt; finds_letters(alloc, b"0", 0));
    assert!(rt; finds_letters(alloc, b"128", 128));
    assert!(rt; finds_letters(alloc, b"1048576", 1_048_576));
    assert!(rt; fails(alloc, FILL, b"1048577", b"value too long"));
    assert!(rt; fails(alloc, FILL, b"2000000", b"value too long"));
}

#[test]
fn fill_takes_sizes_alone(rt: HostRuntime) {
    for key in [b"2000001".as_slice(), b"+7", b""] {
        assert!(rt; fails(rt.alloc(), FILL, key, b"not a size"));
    }
}

#[test]
fn another_number_is_no_group(rt: HostRuntime) {
    assert!(rt; fails(rt.alloc(), GroupId { number: 3 }, b"k", b"no group"));
}

#[test]
fn a_shared_fill_is_equal(rt: HostRuntime) {
    let shared = fill(rt.alloc(), ECHO, b"k").share().expect(&rt, "memory");
    assert!(rt; is_asked(&shared) && has_found(&shared, b"k"));
}

#[test]
fn a_shared_failure_is_equal(rt: HostRuntime) {
    let shared = fill(rt.alloc(), SQUARE, b"x").share().expect(&rt, "memory");
    assert!(rt; has_failed(&shared, b"not a number"));
}

#[test]
fn names_tell_the_groups(rt: HostRuntime) {
    let names = Names::of(&DemoSource);
    assert!(rt; names.group(b"echo") == Some(ECHO));
    assert!(rt; names.group(b"square") == Some(SQUARE));
    assert!(rt; names.group(b"fill") == Some(FILL));
    assert!(rt; names.group(b"nope").is_none());
    assert_eq!(rt; DemoSource.group_count(), 3);
}

#[test]
fn a_fill_calls_the_source_once(rt: HostRuntime) {
    let source = Hooked {
        hook: Counting {
            calls: AtomicU64::new(0),
        },
    };
    let calls = &source.hook.calls;
    let fill = Fill::run(rt.alloc(), &source, ECHO, view_of(b"k"));
    assert_eq!(rt; calls.load(SeqCst), 1);
    assert!(rt; fill.share().is_ok());
    assert_eq!(rt; calls.load(SeqCst), 1);
}
