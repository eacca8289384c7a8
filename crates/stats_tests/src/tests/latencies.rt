//! How long things took, as the page tells it.

use crate::tests::worked::{BUILD, NUMBERS};
use peer_stats::{CacheLimits, Counters, Numbers, ServedGroup, metrics_page};
use std::alloc::Global;
use std::test::Fail;
use std::time::Duration;

// What clients waited for the second of two groups: at a bound, above it, and at the last bound and above that.
const WAITS: &str = r#"
peer_front_wait_duration_seconds_bucket{group="a\"b",le="0.001"} 1
peer_front_wait_duration_seconds_bucket{group="a\"b",le="0.0025"} 2
peer_front_wait_duration_seconds_bucket{group="a\"b",le="0.005"} 2
peer_front_wait_duration_seconds_bucket{group="a\"b",le="0.01"} 2
peer_front_wait_duration_seconds_bucket{group="a\"b",le="0.025"} 2
peer_front_wait_duration_seconds_bucket{group="a\"b",le="0.05"} 2
peer_front_wait_duration_seconds_bucket{group="a\"b",le="0.1"} 2
peer_front_wait_duration_seconds_bucket{group="a\"b",le="0.25"} 2
peer_front_wait_duration_seconds_bucket{group="a\"b",le="0.5"} 2
peer_front_wait_duration_seconds_bucket{group="a\"b",le="1"} 2
peer_front_wait_duration_seconds_bucket{group="a\"b",le="2.5"} 2
peer_front_wait_duration_seconds_bucket{group="a\"b",le="5"} 2
peer_front_wait_duration_seconds_bucket{group="a\"b",le="10"} 2
peer_front_wait_duration_seconds_bucket{group="a\"b",le="30"} 2
peer_front_wait_duration_seconds_bucket{group="a\"b",le="60"} 3
peer_front_wait_duration_seconds_bucket{group="a\"b",le="+Inf"} 4
peer_front_wait_duration_seconds_sum{group="a\"b"} 120.002004
peer_front_wait_duration_seconds_count{group="a\"b"} 4
"#;

// How long values were under way, the begin of it; all is in one place.
const FETCHES: &str = r#"# TYPE peer_front_fetch_duration_seconds histogram
peer_front_fetch_duration_seconds_bucket{group="red",le="0.001"} 0
peer_front_fetch_duration_seconds_bucket{group="red",le="0.0025"} 0
peer_front_fetch_duration_seconds_bucket{group="red",le="0.005"} 3
"#;

// How long they waited until they were.
const QUEUE: &str = r#"# TYPE peer_front_queue_duration_seconds histogram
peer_front_queue_duration_seconds_bucket{le="0.0001"} 1
peer_front_queue_duration_seconds_bucket{le="0.001"} 1
peer_front_queue_duration_seconds_bucket{le="0.01"} 2
peer_front_queue_duration_seconds_bucket{le="0.1"} 2
peer_front_queue_duration_seconds_bucket{le="0.5"} 2
peer_front_queue_duration_seconds_bucket{le="1"} 2
peer_front_queue_duration_seconds_bucket{le="2.5"} 2
peer_front_queue_duration_seconds_bucket{le="5"} 2
peer_front_queue_duration_seconds_bucket{le="10"} 2
peer_front_queue_duration_seconds_bucket{le="30"} 2
peer_front_queue_duration_seconds_bucket{le="+Inf"} 3
peer_front_queue_duration_seconds_sum 90.001101
peer_front_queue_duration_seconds_count 3
"#;

// How long the turns of the second of two loops took.
const TURNS: &str = r#"
peer_front_loop_turn_duration_seconds_count{loop="0"} 0
peer_front_loop_turn_duration_seconds_bucket{loop="1",le="0.0001"} 0
peer_front_loop_turn_duration_seconds_bucket{loop="1",le="0.0005"} 1
peer_front_loop_turn_duration_seconds_bucket{loop="1",le="0.001"} 1
peer_front_loop_turn_duration_seconds_bucket{loop="1",le="0.005"} 1
peer_front_loop_turn_duration_seconds_bucket{loop="1",le="0.01"} 1
peer_front_loop_turn_duration_seconds_bucket{loop="1",le="0.05"} 1
peer_front_loop_turn_duration_seconds_bucket{loop="1",le="0.1"} 1
peer_front_loop_turn_duration_seconds_bucket{loop="1",le="0.5"} 1
peer_front_loop_turn_duration_seconds_bucket{loop="1",le="1"} 1
peer_front_loop_turn_duration_seconds_bucket{loop="1",le="+Inf"} 2
peer_front_loop_turn_duration_seconds_sum{loop="1"} 2.000300
peer_front_loop_turn_duration_seconds_count{loop="1"} 2
# HELP peer_front_origin_connections "#;

// Two groups by their names.
fn two_groups(alloc: Global) -> Result<Vec<ServedGroup>, Fail> {
    let mut groups = Vec::new(alloc);
    for name in [b"red".as_slice(), b"a\"b".as_slice()] {
        let name = name.to_vec(alloc)?;
        let limits = CacheLimits {
            bytes: 7,
            entries: None,
        };
        groups.push(ServedGroup { name, limits })?;
    }
    Ok(groups)
}

// Counters of two groups and two loops, which took this long.
fn counted() -> Counters {
    let counters = Counters::new();
    for micros in [1_000, 1_001, 59_000_003, 61_000_000] {
        counters.waits().count(1, Duration::from_micros(micros));
    }
    for _ in 0..3 {
        counters
            .fetch_times()
            .count_under_way(0, Duration::from_micros(5_000));
    }
    for micros in [100, 1_001, 90_000_000] {
        counters
            .fetch_times()
            .count_queued(Duration::from_micros(micros));
    }
    counters
        .of_loop(1)
        .count_turn(Duration::from_nanos(300_999));
    counters.of_loop(1).count_turn(Duration::from_secs(2));
    counters
}

// The page of these counters.
fn page_of(alloc: Global) -> Result<String, Fail> {
    let counters = counted();
    let served = two_groups(alloc)?;
    let groups = counters.read_groups(alloc, served.as_slice())?;
    let turns = counters.read_turns(alloc, 2)?;
    let numbers = Numbers {
        counts: counters.read(),
        ..NUMBERS
    };
    let page = metrics_page(
        alloc,
        &numbers,
        groups.as_slice(),
        turns.as_slice(),
        &[],
        BUILD,
    )?;
    Ok(String::from_utf8(page)?)
}

#[test]
fn times_are_told_as_histograms(rt: HostRuntime) -> Result<(), Fail> {
    let text = page_of(rt.alloc())?;
    let page = text.as_str();
    let waits = page.contains(WAITS);
    let fetches = page.contains(FETCHES);
    let queue = page.contains(QUEUE);
    let turns = page.contains(TURNS);
    drop(text);
    assert!(rt; waits);
    assert!(rt; fetches);
    assert!(rt; queue);
    assert!(rt; turns);
    Ok(())
}

// A time is counted at the first bound that it is not above.
#[test]
fn a_time_at_a_bound_is_within_it(rt: HostRuntime) {
    let counters = Counters::new();
    let times = counters.fetch_times();
    times.count_queued(Duration::from_nanos(100_999));
    times.count_queued(Duration::from_micros(101));
    times.count_queued(Duration::from_secs(30));
    times.count_queued(Duration::from_micros(30_000_001));
    times.count_queued(Duration::MAX);
    let queued = counters.read().queued;
    assert_eq!(rt;
        queued.places,
        [1, 1, 0, 0, 0, 0, 0, 0, 0, 1, 2, 0, 0, 0, 0, 0]
    );
}

// As many loops as a server may have.
#[test]
fn sixteen_loops_are_told_at_most(rt: HostRuntime) -> Result<(), Fail> {
    let counters = Counters::new();
    let few = counters.read_turns(rt.alloc(), 3)?.len();
    let most = counters.read_turns(rt.alloc(), 17)?.len();
    assert_eq!(rt; [few, most], [3, 16]);
    Ok(())
}
