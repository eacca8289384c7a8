//! What is told of the last failures of services.

use peer_stats::{Counters, KeyStart, LastFailure, OriginFailure};
use std::sync::Wait;

// A failure with this key.
fn failure(status: Option<u16>, key: &[u8]) -> LastFailure {
    LastFailure {
        status,
        key: KeyStart::of(key),
    }
}

// Counters of which two groups have failures, the second one of two kinds.
fn failed(rt: &impl Wait) -> Counters {
    let counters = Counters::new();
    let failures = counters.failures();
    failures.note(rt, 0, OriginFailure::Late, failure(None, b"other"));
    failures.note(rt, 1, OriginFailure::Late, failure(None, b"slow"));
    failures.note(rt, 1, OriginFailure::Status, failure(Some(500), b"first"));
    failures.note(rt, 1, OriginFailure::Status, failure(Some(503), b"last"));
    counters
}

// Whether the last failure of this kind of the group has this status and this key.
fn is_last(
    rt: &impl Wait,
    counters: &Counters,
    group: usize,
    kind: OriginFailure,
    status: Option<u16>,
    key: &[u8],
) -> bool {
    match counters.failures().read_last(rt, group, kind) {
        Some(last) => last.status == status && last.key.as_slice() == key,
        None => false,
    }
}

#[test]
fn the_last_failure_of_each_kind_is_told(rt: HostRuntime) {
    let counters = failed(&rt);
    let status = is_last(&rt, &counters, 1, OriginFailure::Status, Some(503), b"last");
    let late = is_last(&rt, &counters, 1, OriginFailure::Late, None, b"slow");
    let other = is_last(&rt, &counters, 0, OriginFailure::Late, None, b"other");
    let none = counters
        .failures()
        .read_last(&rt, 0, OriginFailure::Status)
        .is_none();
    assert!(rt; status);
    assert!(rt; late);
    assert!(rt; other);
    assert!(rt; none);
}

#[test]
fn what_is_noted_is_counted(rt: HostRuntime) {
    let counters = failed(&rt);
    let counts = counters.failures().read_group(1);
    assert_eq!(rt;
        [
            counts.of(OriginFailure::Status),
            counts.of(OriginFailure::Late),
            counts.of(OriginFailure::Lost)
        ],
        [2, 1, 0]
    );
}

#[test]
fn a_service_fails_until_it_gives_a_reply(rt: HostRuntime) {
    let counters = failed(&rt);
    let failures = counters.failures();
    failures.note_well(1);
    assert_eq!(rt;
        [
            failures.is_failing(0),
            failures.is_failing(1),
            failures.is_failing(2)
        ],
        [true, false, false]
    );
}

#[test]
fn a_key_is_cut_to_64_bytes(rt: HostRuntime) {
    let long = [b'k'; 65];
    let cut = KeyStart::of(&long);
    let whole = KeyStart::of(&long[..64]);
    let short = KeyStart::of(b"red");
    let none = KeyStart::of(b"");
    assert!(rt; cut.as_slice() == &long[..64]);
    assert!(rt; whole.as_slice() == &long[..64]);
    assert!(rt; short.as_slice() == b"red".as_slice());
    assert!(rt; none.as_slice() == b"".as_slice());
}
