//! What the page tells of groups, for worked numbers and names of any bytes.

use crate::tests::worked::{BUILD, NUMBERS};
use peer_stats::{
    AskCounts, CacheCounts, CacheLimits, Counters, FailureCounts, FillerCounts, GroupCounts,
    OriginFailure, ServedGroup, TimeCounts, metrics_page,
};
use std::alloc::Global;
use std::test::Fail;

// A cache whose numbers follow on this one.
fn cache_from(first: u64) -> CacheCounts {
    CacheCounts {
        entries: first,
        bytes: first.wrapping_add(1),
        evicted_by_bytes: first.wrapping_add(2),
        evicted_by_keys: first.wrapping_add(3),
        too_large: first.wrapping_add(4),
    }
}

// A group whose numbers follow on this one, with a bound for its keys or without.
fn group_from(name: &[u8], first: u64, entries: Option<u64>) -> GroupCounts<'_> {
    GroupCounts {
        name,
        asks: AskCounts {
            hits: first,
            led: first.wrapping_add(1),
            joined: first.wrapping_add(2),
        },
        fills: FillerCounts {
            calls: first.wrapping_add(3),
            rehits: first.wrapping_add(4),
        },
        failures: FailureCounts {
            no_such_key: first.wrapping_add(5),
            status: first.wrapping_add(6),
            unreached: first.wrapping_add(7),
            late: first.wrapping_add(8),
            lost: first.wrapping_add(9),
            malformed: first.wrapping_add(10),
            too_long: first.wrapping_add(11),
            memory: first.wrapping_add(12),
        },
        cache: cache_from(first.wrapping_add(13)),
        limits: CacheLimits {
            bytes: first.wrapping_add(19),
            entries,
        },
        fetches: TimeCounts::NONE,
        waits: TimeCounts::NONE,
    }
}

// What the page tells of three groups: a double quote and a backslash; a newline between letters, one of two bytes; and bytes
// that are no UTF-8.
const THREE: &str =
    r#"# HELP peer_front_group_asks_total Requests for a value of the group, by what was found: hit, a value; led, nothing; joined, that it is fetched.
# TYPE peer_front_group_asks_total counter
peer_front_group_asks_total{group="\"\\",found="hit"} 100
peer_front_group_asks_total{group="a\né",found="hit"} 200
peer_front_group_asks_total{group="\\xff\\x80\"\\\nz\\xc3",found="hit"} 300
peer_front_group_asks_total{group="\"\\",found="led"} 101
peer_front_group_asks_total{group="a\né",found="led"} 201
peer_front_group_asks_total{group="\\xff\\x80\"\\\nz\\xc3",found="led"} 301
peer_front_group_asks_total{group="\"\\",found="joined"} 102
peer_front_group_asks_total{group="a\né",found="joined"} 202
peer_front_group_asks_total{group="\\xff\\x80\"\\\nz\\xc3",found="joined"} 302
# HELP peer_front_group_calls_total Keys of the group for which its source was called.
# TYPE peer_front_group_calls_total counter
peer_front_group_calls_total{group="\"\\"} 103
peer_front_group_calls_total{group="a\né"} 203
peer_front_group_calls_total{group="\\xff\\x80\"\\\nz\\xc3"} 303
# HELP peer_front_group_rehits_total Keys of the group whose value its cache had before its source was called.
# TYPE peer_front_group_rehits_total counter
peer_front_group_rehits_total{group="\"\\"} 104
peer_front_group_rehits_total{group="a\né"} 204
peer_front_group_rehits_total{group="\\xff\\x80\"\\\nz\\xc3"} 304
# HELP peer_front_group_origin_failures_total Values of the group that its service did not give, by why.
# TYPE peer_front_group_origin_failures_total counter
peer_front_group_origin_failures_total{group="\"\\",kind="no_such_key"} 105
peer_front_group_origin_failures_total{group="a\né",kind="no_such_key"} 205
peer_front_group_origin_failures_total{group="\\xff\\x80\"\\\nz\\xc3",kind="no_such_key"} 305
peer_front_group_origin_failures_total{group="\"\\",kind="status"} 106
peer_front_group_origin_failures_total{group="a\né",kind="status"} 206
peer_front_group_origin_failures_total{group="\\xff\\x80\"\\\nz\\xc3",kind="status"} 306
peer_front_group_origin_failures_total{group="\"\\",kind="unreached"} 107
peer_front_group_origin_failures_total{group="a\né",kind="unreached"} 207
peer_front_group_origin_failures_total{group="\\xff\\x80\"\\\nz\\xc3",kind="unreached"} 307
peer_front_group_origin_failures_total{group="\"\\",kind="late"} 108
peer_front_group_origin_failures_total{group="a\né",kind="late"} 208
peer_front_group_origin_failures_total{group="\\xff\\x80\"\\\nz\\xc3",kind="late"} 308
peer_front_group_origin_failures_total{group="\"\\",kind="lost"} 109
peer_front_group_origin_failures_total{group="a\né",kind="lost"} 209
peer_front_group_origin_failures_total{group="\\xff\\x80\"\\\nz\\xc3",kind="lost"} 309
peer_front_group_origin_failures_total{group="\"\\",kind="malformed"} 110
peer_front_group_origin_failures_total{group="a\né",kind="malformed"} 210
peer_front_group_origin_failures_total{group="\\xff\\x80\"\\\nz\\xc3",kind="malformed"} 310
peer_front_group_origin_failures_total{group="\"\\",kind="too_long"} 111
peer_front_group_origin_failures_total{group="a\né",kind="too_long"} 211
peer_front_group_origin_failures_total{group="\\xff\\x80\"\\\nz\\xc3",kind="too_long"} 311
peer_front_group_origin_failures_total{group="\"\\",kind="memory"} 112
peer_front_group_origin_failures_total{group="a\né",kind="memory"} 212
peer_front_group_origin_failures_total{group="\\xff\\x80\"\\\nz\\xc3",kind="memory"} 312
# HELP peer_front_group_cache_entries Keys in the cache of the group.
# TYPE peer_front_group_cache_entries gauge
peer_front_group_cache_entries{group="\"\\"} 113
peer_front_group_cache_entries{group="a\né"} 213
peer_front_group_cache_entries{group="\\xff\\x80\"\\\nz\\xc3"} 313
# HELP peer_front_group_cache_bytes Bytes in the cache of the group: keys, values and what holds them.
# TYPE peer_front_group_cache_bytes gauge
peer_front_group_cache_bytes{group="\"\\"} 114
peer_front_group_cache_bytes{group="a\né"} 214
peer_front_group_cache_bytes{group="\\xff\\x80\"\\\nz\\xc3"} 314
# HELP peer_front_group_cache_limit_entries Keys that the cache of the group may have; +Inf without such a limit.
# TYPE peer_front_group_cache_limit_entries gauge
peer_front_group_cache_limit_entries{group="\"\\"} 118
peer_front_group_cache_limit_entries{group="a\né"} +Inf
peer_front_group_cache_limit_entries{group="\\xff\\x80\"\\\nz\\xc3"} 318
# HELP peer_front_group_cache_limit_bytes Bytes that the cache of the group may have: keys, values and what holds them.
# TYPE peer_front_group_cache_limit_bytes gauge
peer_front_group_cache_limit_bytes{group="\"\\"} 119
peer_front_group_cache_limit_bytes{group="a\né"} 219
peer_front_group_cache_limit_bytes{group="\\xff\\x80\"\\\nz\\xc3"} 319
# HELP peer_front_group_cache_evictions_total Entries that left the cache of the group to make room, by the bound that was met: bytes, keys.
# TYPE peer_front_group_cache_evictions_total counter
peer_front_group_cache_evictions_total{group="\"\\",reason="bytes"} 115
peer_front_group_cache_evictions_total{group="a\né",reason="bytes"} 215
peer_front_group_cache_evictions_total{group="\\xff\\x80\"\\\nz\\xc3",reason="bytes"} 315
peer_front_group_cache_evictions_total{group="\"\\",reason="keys"} 116
peer_front_group_cache_evictions_total{group="a\né",reason="keys"} 216
peer_front_group_cache_evictions_total{group="\\xff\\x80\"\\\nz\\xc3",reason="keys"} 316
# HELP peer_front_group_cache_rejected_total Values that the cache of the group did not keep, by why: too_large.
# TYPE peer_front_group_cache_rejected_total counter
peer_front_group_cache_rejected_total{group="\"\\",reason="too_large"} 117
peer_front_group_cache_rejected_total{group="a\né",reason="too_large"} 217
peer_front_group_cache_rejected_total{group="\\xff\\x80\"\\\nz\\xc3",reason="too_large"} 317
# HELP peer_front_fetch_duration_seconds "#;

#[test]
fn each_group_has_its_name_and_its_numbers(rt: HostRuntime) -> Result<(), Fail> {
    let groups = [
        group_from(b"\"\\", 100, Some(118)),
        group_from(b"a\n\xC3\xA9", 200, None),
        group_from(b"\xFF\x80\"\\\nz\xC3", 300, Some(318)),
    ];
    let page = metrics_page(rt.alloc(), &NUMBERS, &groups, &[], &[], BUILD)?;
    let text = String::from_utf8(page)?;
    let told = text.as_str().contains(THREE);
    assert!(rt; told);
    Ok(())
}

// What a group's cache may have in these tests.
const LIMITS: CacheLimits = CacheLimits {
    bytes: 7,
    entries: None,
};

// Two groups by their names.
fn two_groups(alloc: Global) -> Result<Vec<ServedGroup>, Fail> {
    let mut groups = Vec::new(alloc);
    for name in [b"red".as_slice(), b"blue".as_slice()] {
        let name = name.to_vec(alloc)?;
        let limits = LIMITS;
        groups.push(ServedGroup { name, limits })?;
    }
    Ok(groups)
}

// The counters of two loops, two who fill, and the service of the second of two groups.
fn published() -> Counters {
    let counters = Counters::new();
    for (number, first) in [(0, 1), (0, 10), (1, 20), (63, 30)] {
        counters.of_group(number).publish(cache_from(first));
    }
    let one = AskCounts {
        hits: 1,
        led: 2,
        joined: 3,
    };
    counters.of_loop(0).publish_group(1, one);
    counters.of_loop(15).publish_group(1, one);
    counters.of_loop(15).publish_group(1, one);
    let calls = |calls, rehits| FillerCounts { calls, rehits };
    counters.of_filler(0).publish(0, calls(1, 0));
    counters.of_filler(0).publish(1, calls(2, 1));
    counters.of_filler(15).publish(1, calls(1, 0));
    counters.failures().count(1, OriginFailure::Late);
    counters.failures().count(1, OriginFailure::Status);
    counters.failures().count(0, OriginFailure::Late);
    counters
}

// What is read of a group, in short: asks, jobs, failures that were late, keys, bytes that its cache may have.
fn short_of(group: &GroupCounts<'_>) -> [u64; 8] {
    [
        group.asks.hits,
        group.asks.led,
        group.asks.joined,
        group.fills.calls,
        group.fills.rehits,
        group.failures.late,
        group.cache.entries,
        group.limits.bytes,
    ]
}

#[test]
fn what_is_published_of_a_group_is_read_of_it(rt: HostRuntime) -> Result<(), Fail> {
    let counters = published();
    let served = two_groups(rt.alloc())?;
    let groups = counters.read_groups(rt.alloc(), served.as_slice())?;
    let red = groups.as_slice().first().map(short_of);
    let blue = groups.as_slice().last().map(short_of);
    let named = groups.as_slice().iter().map(|group| group.name).last() == Some(b"blue".as_slice());
    drop(groups);
    drop(served);
    assert_eq!(rt; red, Some([0, 0, 0, 1, 0, 1, 10, 7]));
    assert_eq!(rt; blue, Some([2, 4, 6, 2, 1, 1, 20, 7]));
    assert!(rt; named);
    assert_eq!(rt; counters.of_group(63).read(), cache_from(30));
    Ok(())
}

// What was counted of groups adds up to what was counted of all.
#[test]
fn the_groups_add_up(rt: HostRuntime) {
    let counters = published();
    let all = counters.read();
    assert_eq!(rt; [all.fillers.calls, all.fillers.rehits], [3, 1]);
    assert_eq!(rt;
        [all.failures.late, all.failures.status, all.failures.lost],
        [2, 1, 0]
    );
}
