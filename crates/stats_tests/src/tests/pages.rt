//! The page for worked numbers, and sums of slots.

use crate::tests::worked::{BUILD, COUNTS, NUMBERS};
use peer_stats::{
    CloseCounts, Closing, Counters, LoopCounts, Numbers, OriginFailure, ReplyCounts, metrics_page,
};
use std::test::Fail;

const ROWS: [&str; 54] = [
    "# TYPE peer_front_build_info gauge\npeer_front_build_info{version=\"1.2.3\",toolchain=\"a\\\"b\"} 1\n",
    "# HELP peer_front_asked_total Values asked for.\n# TYPE peer_front_asked_total counter\npeer_front_asked_total 60\n",
    "peer_front_hits_total 10\n",
    "peer_front_led_total 20\n",
    "peer_front_joined_total 30\n",
    "peer_front_strangers_total 0\n",
    "peer_front_calls_total 17\n",
    "peer_front_rehits_total 3\n",
    "# TYPE peer_front_connections gauge\npeer_front_connections 5\n",
    "peer_front_connections_accepted_total 6\n",
    "peer_front_accept_failures_total 1\n",
    "# TYPE peer_front_received_bytes_total counter\npeer_front_received_bytes_total 71\n",
    "# TYPE peer_front_sent_bytes_total counter\npeer_front_sent_bytes_total 72\n",
    "# TYPE peer_front_origin_failures_total counter\npeer_front_origin_failures_total{kind=\"no_such_key\"} 11\n",
    "peer_front_origin_failures_total{kind=\"status\"} 12\n",
    "peer_front_origin_failures_total{kind=\"unreached\"} 13\n",
    "peer_front_origin_failures_total{kind=\"late\"} 14\n",
    "peer_front_origin_failures_total{kind=\"lost\"} 15\n",
    "peer_front_origin_failures_total{kind=\"malformed\"} 16\n",
    "peer_front_origin_failures_total{kind=\"too_long\"} 17\n",
    "peer_front_origin_failures_total{kind=\"memory\"} 18\n",
    "# TYPE peer_front_access_log_dropped_total counter\npeer_front_access_log_dropped_total 73\n",
    "# TYPE peer_front_connections_closed_total counter\npeer_front_connections_closed_total{reason=\"client\"} 21\n",
    "peer_front_connections_closed_total{reason=\"reply\"} 22\n",
    "peer_front_connections_closed_total{reason=\"silent\"} 23\n",
    "peer_front_connections_closed_total{reason=\"slow\"} 24\n",
    "peer_front_connections_closed_total{reason=\"crowded\"} 25\n",
    "peer_front_connections_closed_total{reason=\"memory\"} 26\n",
    "peer_front_connections_closed_total{reason=\"end\"} 27\n",
    "# TYPE peer_front_replies_total counter\npeer_front_replies_total{code=\"200\"} 31\n",
    "peer_front_replies_total{code=\"400\"} 32\n",
    "peer_front_replies_total{code=\"404\"} 33\n",
    "peer_front_replies_total{code=\"405\"} 34\n",
    "peer_front_replies_total{code=\"413\"} 35\n",
    "peer_front_replies_total{code=\"431\"} 36\n",
    "peer_front_replies_total{code=\"500\"} 37\n",
    "peer_front_replies_total{code=\"501\"} 38\n",
    "peer_front_unknown_groups_total 39\n",
    "# TYPE peer_front_connections_limit gauge\npeer_front_connections_limit 41\n",
    "# TYPE peer_front_under_way_limit gauge\npeer_front_under_way_limit 42\n",
    "# TYPE peer_front_untaken_limit_bytes gauge\npeer_front_untaken_limit_bytes 43\n",
    "# TYPE peer_front_jobs_queued gauge\npeer_front_jobs_queued 0\n",
    "# TYPE peer_front_untaken_bytes gauge\npeer_front_untaken_bytes 44\n",
    "# TYPE peer_front_ready gauge\npeer_front_ready 1\n",
    "peer_front_cache_bytes 18446744073709551615\n",
    "# TYPE peer_front_uptime_seconds gauge\n",
    "peer_front_uptime_seconds 7\n",
    "# TYPE process_cpu_seconds_total counter\nprocess_cpu_seconds_total 12.05\n",
    "# TYPE process_start_time_seconds gauge\nprocess_start_time_seconds 0.90\n",
    "# TYPE process_resident_memory_bytes gauge\nprocess_resident_memory_bytes 51\n",
    "# TYPE process_virtual_memory_bytes gauge\nprocess_virtual_memory_bytes 52\n",
    "# TYPE process_threads gauge\nprocess_threads 53\n",
    "# TYPE process_open_fds gauge\nprocess_open_fds 54\n",
    "# TYPE process_max_fds gauge\nprocess_max_fds +Inf\n",
];

#[test]
fn the_page_has_a_row_for_each_number(rt: HostRuntime) -> Result<(), Fail> {
    let page = metrics_page(rt.alloc(), &NUMBERS, &[], &[], &[], BUILD)?;
    let text = String::from_utf8(page)?;
    let mut right = true;
    for row in ROWS {
        right &= text.as_str().contains(row);
    }
    assert!(rt; right);
    Ok(())
}

// A system that tells nothing of the process, and a queue with keys in it.
#[test]
fn what_the_system_does_not_tell_is_not_there(rt: HostRuntime) -> Result<(), Fail> {
    let mut numbers = Numbers {
        process: None,
        is_ready: false,
        ..NUMBERS
    };
    numbers.counts.loops.led = 25;
    let page = metrics_page(rt.alloc(), &numbers, &[], &[], &[], BUILD)?;
    let text = String::from_utf8(page)?;
    let page = text.as_str();
    let right = page.contains("\npeer_front_jobs_queued 5\n")
        && page.contains("\npeer_front_ready 0\n")
        && !page.contains("process_");
    assert!(rt; right);
    Ok(())
}

// What two loops counted.
const SUM: LoopCounts = LoopCounts {
    asked: 63,
    hits: 11,
    led: 40,
    joined: 60,
    strangers: 0,
    connections: 10,
};

#[test]
fn slots_are_added_up(rt: HostRuntime) {
    let counters = Counters::new();
    let one = LoopCounts {
        asked: 3,
        hits: 1,
        ..COUNTS.loops
    };
    counters.of_loop(0).publish(one);
    counters.of_loop(1).publish(COUNTS.loops);
    counters.of_loop(1).publish(COUNTS.loops);
    counters.of_filler(15).publish(0, COUNTS.fillers);
    counters.accepts().count_accepted();
    counters.accepts().count_failed();
    counters.failures().count(0, OriginFailure::Late);
    counters.publish_cache_bytes(9);
    let counts = counters.read();
    assert_eq!(rt;
        (counts.loops, counts.fillers, counts.cache_bytes),
        (SUM, COUNTS.fillers, 9)
    );
    assert_eq!(rt;
        [
            counts.accepts.accepted,
            counts.accepts.failed,
            counts.failures.late
        ],
        [1, 1, 1]
    );
}

// As many loops as a server may have: each has a slot of its own.
#[test]
fn each_of_sixteen_loops_has_a_slot(rt: HostRuntime) {
    let counters = Counters::new();
    for number in 0..16 {
        counters.of_loop(number).publish(COUNTS.loops);
    }
    let loops = counters.read().loops;
    assert_eq!(rt; [loops.asked, loops.connections], [16 * 60, 16 * 5]);
}

#[test]
fn replies_and_ends_of_loops_are_added_up(rt: HostRuntime) {
    let counters = Counters::new();
    let ok = ReplyCounts {
        ok: 2,
        ..ReplyCounts::NONE
    };
    counters.of_loop(0).publish_replies(ok);
    counters.of_loop(1).publish_replies(COUNTS.replies);
    counters.of_loop(1).publish_replies(COUNTS.replies);
    counters.of_loop(0).count_close(Closing::Slow);
    counters.of_loop(1).count_close(Closing::Slow);
    counters.of_loop(1).count_close(Closing::End);
    counters.publish_untaken_bytes(8);
    counters.count_log_dropped(4);
    counters.count_log_dropped(5);
    let counts = counters.read();
    let replies = ReplyCounts {
        ok: 33,
        ..COUNTS.replies
    };
    let closes = CloseCounts {
        slow: 2,
        end: 1,
        ..CloseCounts::NONE
    };
    assert_eq!(rt;
        (counts.replies, counts.closes, counts.untaken_bytes),
        (replies, closes, 8)
    );
    assert_eq!(rt; counts.log_dropped, 9);
}
