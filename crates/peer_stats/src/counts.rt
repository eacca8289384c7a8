//! Numbers that were counted, as a reader sees them.
ghost use Rattle.std.specs.Prelude.{◌≡◌};
ghost use Rattle.peer_stats.specs.Sums.{ask_sum, close_sum, failure_sum, filler_sum, loop_sum, reply_sum};
ghost use Rattle.peer_stats.specs.Sums.{failures_of, traffic_sum};

use crate::failure::OriginFailure;
use crate::times::TimeCounts;

/// What one loop has counted, or all of them, without what it counted of each group. Each but the last is what a getter of its
/// seat gives.
#[derive(Clone, Copy, Debug, PartialEq, Eq)]
pub struct LoopCounts {
    pub asked: u64,
    pub hits: u64,
    pub led: u64,
    pub joined: u64,
    pub strangers: u64,
    /// The connections that it has by now.
    pub connections: u64,
}

/// The requests for a value of one group, by what was found.
#[derive(Clone, Copy, Debug, PartialEq, Eq)]
pub struct AskCounts {
    pub hits: u64,
    pub led: u64,
    pub joined: u64,
}

/// The replies that were put, by their status codes.
#[derive(Clone, Copy, Debug, PartialEq, Eq)]
pub struct ReplyCounts {
    pub ok: u64,
    pub bad_request: u64,
    pub not_found: u64,
    pub not_allowed: u64,
    pub content_too_large: u64,
    pub head_too_large: u64,
    pub failed: u64,
    pub not_implemented: u64,
    /// Those of `not_found` to a request for a group that is not served.
    pub unknown_groups: u64,
}

/// The bytes of clients.
#[derive(Clone, Copy, Debug, PartialEq, Eq)]
pub struct TrafficCounts {
    /// Those that they sent.
    pub received: u64,
    /// Those that they took.
    pub sent: u64,
}

/// The connections that ended, by why.
#[derive(Clone, Copy, Debug, PartialEq, Eq)]
pub struct CloseCounts {
    pub client: u64,
    pub reply: u64,
    pub silent: u64,
    pub slow: u64,
    pub crowded: u64,
    pub memory: u64,
    pub end: u64,
}

/// What one thread that fills has counted, or all of them; of one group, or of all.
#[derive(Clone, Copy, Debug, PartialEq, Eq)]
pub struct FillerCounts {
    pub calls: u64,
    pub rehits: u64,
}

/// What the thread that accepts has counted.
#[derive(Clone, Copy, Debug, PartialEq, Eq)]
pub struct AcceptCounts {
    pub accepted: u64,
    /// The accepts that failed, since the process has no free file descriptor or for another reason of the system.
    pub failed: u64,
}

/// How often origins gave no value, by why.
#[derive(Clone, Copy, Debug, PartialEq, Eq)]
pub struct FailureCounts {
    pub no_such_key: u64,
    pub status: u64,
    pub unreached: u64,
    pub late: u64,
    pub lost: u64,
    pub malformed: u64,
    pub too_long: u64,
    pub memory: u64,
}

/// What the cache of a group has by now, and what it has counted.
#[derive(Clone, Copy, Debug, PartialEq, Eq)]
pub struct CacheCounts {
    pub entries: u64,
    /// The bytes of the entries: keys, values and what holds them.
    pub bytes: u64,
    /// The entries that left it as their bytes were too many.
    pub evicted_by_bytes: u64,
    /// The entries that left it as the keys were too many.
    pub evicted_by_keys: u64,
    /// The values that it did not keep, since they are larger than it may be.
    pub too_large: u64,
}

/// What the cache of a group may have.
#[derive(Clone, Copy, Debug, PartialEq, Eq)]
pub struct CacheLimits {
    pub bytes: u64,
    /// The most keys, none where their number has no bound.
    pub entries: Option<u64>,
}

/// A group that is served, by its name: what was counted of it, and what its cache has and may have.
#[derive(Clone, Copy, Debug, PartialEq, Eq)]
pub struct GroupCounts<'n> {
    pub name: &'n [u8],
    pub asks: AskCounts,
    pub fills: FillerCounts,
    pub failures: FailureCounts,
    pub cache: CacheCounts,
    pub limits: CacheLimits,
    /// How long its values were under way.
    pub fetches: TimeCounts,
    /// How long clients waited for its values.
    pub waits: TimeCounts,
}

/// All that a server has counted, but for what it has of each group.
#[derive(Clone, Copy, Debug, PartialEq, Eq)]
pub struct Counts {
    pub loops: LoopCounts,
    pub replies: ReplyCounts,
    pub traffic: TrafficCounts,
    pub closes: CloseCounts,
    pub fillers: FillerCounts,
    pub accepts: AcceptCounts,
    pub failures: FailureCounts,
    /// The bytes in all caches: keys, values and what holds them.
    pub cache_bytes: u64,
    /// The bytes that clients have not taken, of those who hold many.
    pub untaken_bytes: u64,
    /// The replies that have no line in the access log.
    pub log_dropped: u64,
    /// How long values waited until they were under way.
    pub queued: TimeCounts,
}

impl LoopCounts {
    /// Nothing was counted.
    pub const NONE: LoopCounts = LoopCounts {
        asked: 0,
        hits: 0,
        led: 0,
        joined: 0,
        strangers: 0,
        connections: 0,
    };

    /// What two loops have counted together. A sum past 2^64 wraps, as Prometheus takes it for a restart.
    pub fn plus(self, other: LoopCounts) -> LoopCounts
        ensures { result ≡ loop_sum self other }
    {
        LoopCounts {
            asked: self.asked.wrapping_add(other.asked),
            hits: self.hits.wrapping_add(other.hits),
            led: self.led.wrapping_add(other.led),
            joined: self.joined.wrapping_add(other.joined),
            strangers: self.strangers.wrapping_add(other.strangers),
            connections: self.connections.wrapping_add(other.connections),
        }
    }
}

impl FillerCounts {
    /// Nothing was counted.
    pub const NONE: FillerCounts = FillerCounts {
        calls: 0,
        rehits: 0,
    };

    /// What two fillers have counted together.
    pub fn plus(self, other: FillerCounts) -> FillerCounts
        ensures { result ≡ filler_sum self other }
    {
        FillerCounts {
            calls: self.calls.wrapping_add(other.calls),
            rehits: self.rehits.wrapping_add(other.rehits),
        }
    }
}

impl AskCounts {
    /// Nothing was counted.
    pub const NONE: AskCounts = AskCounts {
        hits: 0,
        led: 0,
        joined: 0,
    };

    /// What two loops have counted of a group together.
    pub fn plus(self, other: AskCounts) -> AskCounts
        ensures { result ≡ ask_sum self other }
    {
        AskCounts {
            hits: self.hits.wrapping_add(other.hits),
            led: self.led.wrapping_add(other.led),
            joined: self.joined.wrapping_add(other.joined),
        }
    }
}

impl ReplyCounts {
    /// Nothing was counted.
    pub const NONE: ReplyCounts = ReplyCounts {
        ok: 0,
        bad_request: 0,
        not_found: 0,
        not_allowed: 0,
        content_too_large: 0,
        head_too_large: 0,
        failed: 0,
        not_implemented: 0,
        unknown_groups: 0,
    };

    /// What two loops have counted together.
    pub fn plus(self, other: ReplyCounts) -> ReplyCounts
        ensures { result ≡ reply_sum self other }
    {
        ReplyCounts {
            ok: self.ok.wrapping_add(other.ok),
            bad_request: self.bad_request.wrapping_add(other.bad_request),
            not_found: self.not_found.wrapping_add(other.not_found),
            not_allowed: self.not_allowed.wrapping_add(other.not_allowed),
            content_too_large: self.content_too_large.wrapping_add(other.content_too_large),
            head_too_large: self.head_too_large.wrapping_add(other.head_too_large),
            failed: self.failed.wrapping_add(other.failed),
            not_implemented: self.not_implemented.wrapping_add(other.not_implemented),
            unknown_groups: self.unknown_groups.wrapping_add(other.unknown_groups),
        }
    }
}

impl TrafficCounts {
    /// None.
    pub const NONE: TrafficCounts = TrafficCounts {
        received: 0,
        sent: 0,
    };

    /// Those of the clients of two loops together.
    pub fn plus(self, other: TrafficCounts) -> TrafficCounts
        ensures { result ≡ traffic_sum self other }
    {
        TrafficCounts {
            received: self.received.wrapping_add(other.received),
            sent: self.sent.wrapping_add(other.sent),
        }
    }
}

impl CloseCounts {
    /// Nothing was counted.
    pub const NONE: CloseCounts = CloseCounts {
        client: 0,
        reply: 0,
        silent: 0,
        slow: 0,
        crowded: 0,
        memory: 0,
        end: 0,
    };

    /// What two loops have counted together.
    pub fn plus(self, other: CloseCounts) -> CloseCounts
        ensures { result ≡ close_sum self other }
    {
        CloseCounts {
            client: self.client.wrapping_add(other.client),
            reply: self.reply.wrapping_add(other.reply),
            silent: self.silent.wrapping_add(other.silent),
            slow: self.slow.wrapping_add(other.slow),
            crowded: self.crowded.wrapping_add(other.crowded),
            memory: self.memory.wrapping_add(other.memory),
            end: self.end.wrapping_add(other.end),
        }
    }
}

impl FailureCounts {
    /// Nothing was counted.
    pub const NONE: FailureCounts = FailureCounts {
        no_such_key: 0,
        status: 0,
        unreached: 0,
        late: 0,
        lost: 0,
        malformed: 0,
        too_long: 0,
        memory: 0,
    };

    /// How many are of this kind.
    pub fn of(self, failure: OriginFailure) -> u64
        ensures { result ≡ failures_of failure self }
    {
        match failure {
            OriginFailure::NoSuchKey => self.no_such_key,
            OriginFailure::Status => self.status,
            OriginFailure::Unreached => self.unreached,
            OriginFailure::Late => self.late,
            OriginFailure::Lost => self.lost,
            OriginFailure::Malformed => self.malformed,
            OriginFailure::TooLong => self.too_long,
            OriginFailure::Memory => self.memory,
        }
    }

    /// What was counted of two groups together.
    pub fn plus(self, other: FailureCounts) -> FailureCounts
        ensures { result ≡ failure_sum self other }
    {
        FailureCounts {
            no_such_key: self.no_such_key.wrapping_add(other.no_such_key),
            status: self.status.wrapping_add(other.status),
            unreached: self.unreached.wrapping_add(other.unreached),
            late: self.late.wrapping_add(other.late),
            lost: self.lost.wrapping_add(other.lost),
            malformed: self.malformed.wrapping_add(other.malformed),
            too_long: self.too_long.wrapping_add(other.too_long),
            memory: self.memory.wrapping_add(other.memory),
        }
    }
}
