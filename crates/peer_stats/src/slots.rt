//! Where threads publish what they have counted.
//!
//! The slot of a loop, or of a thread that fills, has one writer: the thread that it was dealt to. So a publish is a store of
//! each number that changed. Failures of origins, which several threads count, are added in one step, and so are accepts. What
//! a loop asks is told last, and read first: a reader never sees more asked than hit, led and joined together. Each loop
//! publishes what it saw of the caches of groups, so what never falls there is raised to the largest that was seen.
//! Slots of groups are by the numbers of these, modulo 64. A failure is told before it is counted: who sees the count finds it there,
//! or a later one.

use crate::closing::Closing;
use crate::counts::{
    AcceptCounts, AskCounts, CacheCounts, CloseCounts, FailureCounts, FillerCounts, LoopCounts,
    ReplyCounts, TrafficCounts,
};
use crate::failure::OriginFailure;
use crate::last::{LastFailure, LastSlots};
use crate::time_slots::TurnTimes;
use crate::times::TimeCounts;
use std::sync::Wait;
use std::sync::atomic::Ordering::SeqCst;
use std::sync::atomic::{AtomicBool, AtomicU64};
use std::time::Duration;

/// How many slots there are for groups: the most groups that a pool has.
pub(crate) const MAX_GROUPS: usize = 64;

// Stores a number of the one writer, unless it is there by now.
fn publish(cell: &AtomicU64, count: u64) {
    if cell.load(SeqCst) != count {
        cell.store(count, SeqCst);
    }
}

// Raises a number of several writers, which never falls.
fn raise(cell: &AtomicU64, count: u64) {
    if cell.load(SeqCst) < count {
        cell.fetch_max(count, SeqCst);
    }
}

// Where one loop publishes the requests for a value of one group.
#[derive(Default, Drop)]
struct AskSlot {
    hits: AtomicU64,
    led: AtomicU64,
    joined: AtomicU64,
}

impl AskSlot {
    fn publish(&self, counts: AskCounts) {
        publish(&self.hits, counts.hits);
        publish(&self.led, counts.led);
        publish(&self.joined, counts.joined);
    }

    fn read(&self) -> AskCounts {
        AskCounts {
            hits: self.hits.load(SeqCst),
            led: self.led.load(SeqCst),
            joined: self.joined.load(SeqCst),
        }
    }
}

// Where one loop publishes the replies that were put.
#[derive(Default, Drop)]
struct ReplySlot {
    ok: AtomicU64,
    bad_request: AtomicU64,
    not_found: AtomicU64,
    not_allowed: AtomicU64,
    content_too_large: AtomicU64,
    head_too_large: AtomicU64,
    failed: AtomicU64,
    not_implemented: AtomicU64,
    unknown_groups: AtomicU64,
}

impl ReplySlot {
    fn publish(&self, counts: ReplyCounts) {
        publish(&self.ok, counts.ok);
        publish(&self.bad_request, counts.bad_request);
        publish(&self.not_found, counts.not_found);
        publish(&self.not_allowed, counts.not_allowed);
        publish(&self.content_too_large, counts.content_too_large);
        publish(&self.head_too_large, counts.head_too_large);
        publish(&self.failed, counts.failed);
        publish(&self.not_implemented, counts.not_implemented);
        publish(&self.unknown_groups, counts.unknown_groups);
    }

    fn read(&self) -> ReplyCounts {
        ReplyCounts {
            ok: self.ok.load(SeqCst),
            bad_request: self.bad_request.load(SeqCst),
            not_found: self.not_found.load(SeqCst),
            not_allowed: self.not_allowed.load(SeqCst),
            content_too_large: self.content_too_large.load(SeqCst),
            head_too_large: self.head_too_large.load(SeqCst),
            failed: self.failed.load(SeqCst),
            not_implemented: self.not_implemented.load(SeqCst),
            unknown_groups: self.unknown_groups.load(SeqCst),
        }
    }
}

// Where one loop counts the connections that ended.
#[derive(Default, Drop)]
struct CloseSlot {
    client: AtomicU64,
    reply: AtomicU64,
    silent: AtomicU64,
    slow: AtomicU64,
    crowded: AtomicU64,
    memory: AtomicU64,
    end: AtomicU64,
}

impl CloseSlot {
    // Where those are counted that ended so.
    fn slot(&self, why: Closing) -> &AtomicU64 {
        match why {
            Closing::Client => &self.client,
            Closing::Reply => &self.reply,
            Closing::Silent => &self.silent,
            Closing::Slow => &self.slow,
            Closing::Crowded => &self.crowded,
            Closing::Memory => &self.memory,
            Closing::End => &self.end,
        }
    }

    fn read(&self) -> CloseCounts {
        CloseCounts {
            client: self.client.load(SeqCst),
            reply: self.reply.load(SeqCst),
            silent: self.silent.load(SeqCst),
            slow: self.slow.load(SeqCst),
            crowded: self.crowded.load(SeqCst),
            memory: self.memory.load(SeqCst),
            end: self.end.load(SeqCst),
        }
    }
}

/// Where one loop publishes.
#[derive(Default, Drop)]
pub struct LoopSlot {
    asked: AtomicU64,
    hits: AtomicU64,
    led: AtomicU64,
    joined: AtomicU64,
    strangers: AtomicU64,
    connections: AtomicU64,
    groups: [AskSlot; MAX_GROUPS],
    replies: ReplySlot,
    closes: CloseSlot,
    turn: AtomicU64,
    received: AtomicU64,
    sent: AtomicU64,
    turn_times: TurnTimes,
}

impl LoopSlot {
    /// The loop has counted so much by now.
    pub fn publish(&self, counts: LoopCounts) {
        publish(&self.hits, counts.hits);
        publish(&self.led, counts.led);
        publish(&self.joined, counts.joined);
        publish(&self.strangers, counts.strangers);
        publish(&self.connections, counts.connections);
        publish(&self.asked, counts.asked);
    }

    /// What the loop published.
    pub fn read(&self) -> LoopCounts {
        let asked = self.asked.load(SeqCst);
        LoopCounts {
            asked,
            hits: self.hits.load(SeqCst),
            led: self.led.load(SeqCst),
            joined: self.joined.load(SeqCst),
            strangers: self.strangers.load(SeqCst),
            connections: self.connections.load(SeqCst),
        }
    }

    /// The loop has counted so many requests for a value of the group with this number by now.
    pub fn publish_group(&self, group: usize, counts: AskCounts) {
        self.groups[group % MAX_GROUPS].publish(counts);
    }

    /// What the loop published of the group with this number.
    pub fn read_group(&self, group: usize) -> AskCounts {
        self.groups[group % MAX_GROUPS].read()
    }

    /// The loop has counted so many replies by now.
    pub fn publish_replies(&self, counts: ReplyCounts) {
        self.replies.publish(counts);
    }

    /// The replies that the loop published.
    pub fn read_replies(&self) -> ReplyCounts {
        self.replies.read()
    }

    /// The clients of the loop have sent and taken so many bytes by now.
    pub fn publish_traffic(&self, counts: TrafficCounts) {
        publish(&self.received, counts.received);
        publish(&self.sent, counts.sent);
    }

    /// The bytes of clients that the loop published.
    pub fn read_traffic(&self) -> TrafficCounts {
        TrafficCounts {
            received: self.received.load(SeqCst),
            sent: self.sent.load(SeqCst),
        }
    }

    /// A connection of the loop ended so.
    pub fn count_close(&self, why: Closing) {
        self.closes.slot(why).fetch_add(1, SeqCst);
    }

    /// The connections of the loop that ended.
    pub fn read_closes(&self) -> CloseCounts {
        self.closes.read()
    }

    /// The loop is in the turn with this number, or sleeps (`ASLEEP`).
    pub fn publish_turn(&self, turn: u64) {
        self.turn.store(turn, SeqCst);
    }

    /// The number of the turn that the loop published.
    pub fn read_turn(&self) -> u64 {
        self.turn.load(SeqCst)
    }

    /// A turn of the loop took so long.
    pub fn count_turn(&self, time: Duration) {
        self.turn_times.count(time);
    }

    /// How long the turns of the loop took.
    pub(crate) fn read_turns(&self) -> TimeCounts {
        self.turn_times.read()
    }
}

// Where one thread that fills counts the jobs of one group.
#[derive(Default, Drop)]
struct FilledSlot {
    calls: AtomicU64,
    rehits: AtomicU64,
}

/// Where one thread that fills publishes.
#[derive(Default, Drop)]
pub struct FillerSlot {
    calls: AtomicU64,
    rehits: AtomicU64,
    groups: [FilledSlot; MAX_GROUPS],
}

impl FillerSlot {
    /// The thread has counted so much by now. What it has counted since it told that last is of the group with this number.
    pub fn publish(&self, group: usize, counts: FillerCounts) {
        let before = self.read();
        let slot = &self.groups[group % MAX_GROUPS];
        let calls = counts.calls.wrapping_sub(before.calls);
        let rehits = counts.rehits.wrapping_sub(before.rehits);
        slot.calls.fetch_add(calls, SeqCst);
        slot.rehits.fetch_add(rehits, SeqCst);
        publish(&self.calls, counts.calls);
        publish(&self.rehits, counts.rehits);
    }

    /// What the thread published.
    pub fn read(&self) -> FillerCounts {
        FillerCounts {
            calls: self.calls.load(SeqCst),
            rehits: self.rehits.load(SeqCst),
        }
    }

    /// What the thread counted of the group with this number.
    pub fn read_group(&self, group: usize) -> FillerCounts {
        let slot = &self.groups[group % MAX_GROUPS];
        FillerCounts {
            calls: slot.calls.load(SeqCst),
            rehits: slot.rehits.load(SeqCst),
        }
    }
}

/// Where the thread that accepts counts.
#[derive(Default, Drop)]
pub struct AcceptSlot {
    accepted: AtomicU64,
    failed: AtomicU64,
}

impl AcceptSlot {
    /// A connection was accepted.
    pub fn count_accepted(&self) {
        self.accepted.fetch_add(1, SeqCst);
    }

    /// An accept failed.
    pub fn count_failed(&self) {
        self.failed.fetch_add(1, SeqCst);
    }

    /// What the thread counted.
    pub fn read(&self) -> AcceptCounts {
        AcceptCounts {
            accepted: self.accepted.load(SeqCst),
            failed: self.failed.load(SeqCst),
        }
    }
}

/// Where loops publish what the cache of a group has, and what it has counted.
#[derive(Default, Drop)]
pub struct CacheSlot {
    entries: AtomicU64,
    bytes: AtomicU64,
    evicted_by_bytes: AtomicU64,
    evicted_by_keys: AtomicU64,
    too_large: AtomicU64,
}

impl CacheSlot {
    /// The cache has counted so much by now.
    pub fn publish(&self, counts: CacheCounts) {
        publish(&self.entries, counts.entries);
        publish(&self.bytes, counts.bytes);
        raise(&self.evicted_by_bytes, counts.evicted_by_bytes);
        raise(&self.evicted_by_keys, counts.evicted_by_keys);
        raise(&self.too_large, counts.too_large);
    }

    /// What was published of the cache.
    pub fn read(&self) -> CacheCounts {
        CacheCounts {
            entries: self.entries.load(SeqCst),
            bytes: self.bytes.load(SeqCst),
            evicted_by_bytes: self.evicted_by_bytes.load(SeqCst),
            evicted_by_keys: self.evicted_by_keys.load(SeqCst),
            too_large: self.too_large.load(SeqCst),
        }
    }
}

// Where all threads count the failures of the service of one group.
#[derive(Default, Drop)]
struct FailureSlot {
    no_such_key: AtomicU64,
    status: AtomicU64,
    unreached: AtomicU64,
    late: AtomicU64,
    lost: AtomicU64,
    malformed: AtomicU64,
    too_long: AtomicU64,
    memory: AtomicU64,
}

impl FailureSlot {
    // The slot of a kind.
    fn slot(&self, failure: OriginFailure) -> &AtomicU64 {
        match failure {
            OriginFailure::NoSuchKey => &self.no_such_key,
            OriginFailure::Status => &self.status,
            OriginFailure::Unreached => &self.unreached,
            OriginFailure::Late => &self.late,
            OriginFailure::Lost => &self.lost,
            OriginFailure::Malformed => &self.malformed,
            OriginFailure::TooLong => &self.too_long,
            OriginFailure::Memory => &self.memory,
        }
    }

    fn read(&self) -> FailureCounts {
        FailureCounts {
            no_such_key: self.no_such_key.load(SeqCst),
            status: self.status.load(SeqCst),
            unreached: self.unreached.load(SeqCst),
            late: self.late.load(SeqCst),
            lost: self.lost.load(SeqCst),
            malformed: self.malformed.load(SeqCst),
            too_long: self.too_long.load(SeqCst),
            memory: self.memory.load(SeqCst),
        }
    }
}

/// Where all threads count the failures of the services of groups.
#[derive(Default, Drop)]
pub struct FailureSlots {
    groups: [FailureSlot; MAX_GROUPS],
    lasts: [LastSlots; MAX_GROUPS],
    // Whether the service of a group failed after it gave its last whole reply.
    failing: [AtomicBool; MAX_GROUPS],
}

impl FailureSlots {
    /// The service of the group with this number failed.
    pub fn count(&self, group: usize, failure: OriginFailure) {
        self.groups[group % MAX_GROUPS]
            .slot(failure)
            .fetch_add(1, SeqCst);
    }

    /// The service of the group with this number failed so.
    pub fn note<H: Wait>(&self, rt: &H, group: usize, failure: OriginFailure, last: LastFailure) {
        let group = group % MAX_GROUPS;
        self.lasts[group].tell(rt, failure, last);
        self.failing[group].store(true, SeqCst);
        self.count(group, failure);
    }

    /// The service of the group with this number gave a whole reply.
    pub fn note_well(&self, group: usize) {
        let failing = &self.failing[group % MAX_GROUPS];
        // Most replies come while none failed: then no thread writes what others read.
        if failing.load(SeqCst) {
            failing.store(false, SeqCst);
        }
    }

    /// Whether the service of the group with this number gave no whole reply after its last failure that was noted.
    pub fn is_failing(&self, group: usize) -> bool {
        self.failing[group % MAX_GROUPS].load(SeqCst)
    }

    /// The last failure of this kind of the service of the group with this number, if one was noted.
    pub fn read_last<H: Wait>(
        &self,
        rt: &H,
        group: usize,
        failure: OriginFailure,
    ) -> Option<LastFailure> {
        self.lasts[group % MAX_GROUPS].read(rt, failure)
    }

    /// How often the service of the group with this number failed.
    pub fn read_group(&self, group: usize) -> FailureCounts {
        self.groups[group % MAX_GROUPS].read()
    }

    /// How often the services of all groups failed.
    pub fn read(&self) -> FailureCounts {
        let mut sum = FailureCounts::NONE;
        for slot in &self.groups {
            sum = sum.plus(slot.read());
        }
        sum
    }
}
