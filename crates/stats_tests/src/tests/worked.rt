//! Worked numbers.

use peer_stats::{
    AcceptCounts, Build, CloseCounts, Counts, FailureCounts, FillerCounts, LoopCounts, Numbers,
    ProcessCounts, ReplyCounts, ServerBounds, TimeCounts, TrafficCounts,
};

/// What was counted.
pub const COUNTS: Counts = Counts {
    loops: LoopCounts {
        asked: 60,
        hits: 10,
        led: 20,
        joined: 30,
        strangers: 0,
        connections: 5,
    },
    replies: ReplyCounts {
        ok: 31,
        bad_request: 32,
        not_found: 33,
        not_allowed: 34,
        content_too_large: 35,
        head_too_large: 36,
        failed: 37,
        not_implemented: 38,
        unknown_groups: 39,
    },
    traffic: TrafficCounts {
        received: 71,
        sent: 72,
    },
    closes: CloseCounts {
        client: 21,
        reply: 22,
        silent: 23,
        slow: 24,
        crowded: 25,
        memory: 26,
        end: 27,
    },
    fillers: FillerCounts {
        calls: 17,
        rehits: 3,
    },
    accepts: AcceptCounts {
        accepted: 6,
        failed: 1,
    },
    failures: FailureCounts {
        no_such_key: 11,
        status: 12,
        unreached: 13,
        late: 14,
        lost: 15,
        malformed: 16,
        too_long: 17,
        memory: 18,
    },
    cache_bytes: 18446744073709551615,
    untaken_bytes: 44,
    log_dropped: 73,
    queued: TimeCounts::NONE,
};

/// All that the page tells beside groups.
pub const NUMBERS: Numbers = Numbers {
    counts: COUNTS,
    bounds: ServerBounds {
        connections: 41,
        under_way: 42,
        untaken_bytes: 43,
    },
    process: Some(ProcessCounts {
        cpu_hundredths: 1205,
        start_hundredths: 90,
        resident_bytes: 51,
        virtual_bytes: 52,
        threads: 53,
        open_files: 54,
        most_files: None,
    }),
    is_ready: true,
    seconds: 7,
};

/// A version, and a logic with a double quote.
pub const BUILD: Build<'static> = Build {
    version: b"1.2.3",
    toolchain: b"a\"b",
};
