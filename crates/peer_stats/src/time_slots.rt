//! Where threads count how long something took.
//!
//! Several threads count times of one kind, each of which is added in one step: a value, or a client that waits for one, takes
//! longer than that by far. The slot of a loop has one writer.

use crate::slots::MAX_GROUPS;
use crate::times::{
    Bound, MAX_PLACES, QUEUE_BOUNDS, TURN_BOUNDS, TimeCounts, VALUE_BOUNDS, place_of,
};
use std::sync::atomic::AtomicU64;
use std::sync::atomic::Ordering::SeqCst;
use std::time::Duration;

// How many microseconds a time has, 2^64 - 1 at most.
fn micros_of(time: Duration) -> u64 {
    time.as_secs()
        .saturating_mul(1_000_000)
        .saturating_add(u64::from(time.subsec_micros()))
}

// Where times of one kind are counted.
#[derive(Default, Drop)]
struct TimeSlot {
    places: [AtomicU64; MAX_PLACES],
    micros: AtomicU64,
}

impl TimeSlot {
    // Something took so long.
    fn count(&self, bounds: &[Bound], time: Duration) {
        let micros = micros_of(time);
        self.places[place_of(bounds, micros) % MAX_PLACES].fetch_add(1, SeqCst);
        self.micros.fetch_add(micros, SeqCst);
    }

    // What was counted by these bounds.
    fn read(&self, bounds: &'static [Bound]) -> TimeCounts {
        let mut counts = TimeCounts {
            bounds,
            ..TimeCounts::NONE
        };
        for index in 0..MAX_PLACES {
            counts.places[index] = self.places[index].load(SeqCst);
        }
        counts.micros = self.micros.load(SeqCst);
        counts
    }
}

/// Where is counted how long values of each group took.
#[derive(Default, Drop)]
pub struct GroupTimes {
    groups: [TimeSlot; MAX_GROUPS],
}

impl GroupTimes {
    /// A value of the group with this number took so long.
    pub fn count(&self, group: usize, time: Duration) {
        self.groups[group % MAX_GROUPS].count(&VALUE_BOUNDS, time);
    }

    /// What was counted of the group with this number.
    pub(crate) fn read(&self, group: usize) -> TimeCounts {
        self.groups[group % MAX_GROUPS].read(&VALUE_BOUNDS)
    }
}

/// Where threads that fetch count how long their values took.
#[derive(Default, Drop)]
pub struct FetchTimes {
    under_way: GroupTimes,
    queued: TimeSlot,
}

impl FetchTimes {
    /// A value of the group with this number was under way for so long.
    pub fn count_under_way(&self, group: usize, time: Duration) {
        self.under_way.count(group, time);
    }

    /// A value waited for so long until it was under way, or was given up.
    pub fn count_queued(&self, time: Duration) {
        self.queued.count(&QUEUE_BOUNDS, time);
    }

    /// How long values of the group with this number were under way.
    pub(crate) fn read_group(&self, group: usize) -> TimeCounts {
        self.under_way.read(group)
    }

    /// How long values waited until they were under way, or were given up.
    pub(crate) fn read_queued(&self) -> TimeCounts {
        self.queued.read(&QUEUE_BOUNDS)
    }
}

/// Where a loop counts how long its turns took.
#[derive(Default, Drop)]
pub(crate) struct TurnTimes {
    turns: TimeSlot,
}

impl TurnTimes {
    /// A turn took so long.
    pub(crate) fn count(&self, time: Duration) {
        self.turns.count(&TURN_BOUNDS, time);
    }

    /// What was counted.
    pub(crate) fn read(&self) -> TimeCounts {
        self.turns.read(&TURN_BOUNDS)
    }
}
