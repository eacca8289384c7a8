//! Values of services that took longer than they are to, until lines tell of them.
//!
//! It stands on a list under a lock, which is held for as long as a value is put, or the list is taken for an empty one. It promises
//! that a value is put behind the others, or counted as left out.
ghost use Rattle.peer_fetch.specs.Slows.{PutsOrCounts};

use peer_stats::KeyStart;
use peer_value::Spans;
use std::alloc::Global;
use std::mem;
use std::sync::{Mutex, Wait};
use std::time::Duration;

// How many values wait until they are told: more than are told at once.
const PLACES: usize = 32;

/// A value that took long.
#[derive(Clone, Copy)]
pub struct SlowValue {
    /// The number of its group.
    pub group: usize,
    pub key: KeyStart,
    pub spans: Spans,
}

/// The values that wait until they are told, and how many there were beside them.
#[derive(Drop)]
pub struct SlowList {
    pub values: Vec<SlowValue>,
    pub left_out: u64,
}

/// Where threads that fetch note the values that take longer than a time.
#[derive(Drop)]
pub struct SlowValues {
    least: Duration,
    list: Mutex<SlowList>,
}

impl SlowList {
    /// There is none.
    pub fn new(alloc: Global) -> SlowList {
        SlowList {
            values: Vec::new(alloc),
            left_out: 0,
        }
    }

    /// Puts a value behind the others, or counts it, if 32 wait or memory is refused.
    pub fn put(&mut self, value: SlowValue)
        ensures { PutsOrCounts value self.old self.new }
    {
        if self.values.len() >= PLACES || self.values.push(value).is_err() {
            self.left_out = self.left_out.saturating_add(1);
        }
    }
}

impl SlowValues {
    /// Values are noted that take longer than this.
    pub fn new(alloc: Global, least: Duration) -> SlowValues {
        SlowValues {
            least,
            list: Mutex::new(SlowList::new(alloc)),
        }
    }

    /// Whether a value is to be noted that took so long.
    pub fn is_slow(&self, spans: Spans) -> bool {
        spans.whole > self.least
    }

    /// Notes a value.
    pub fn note<H: Wait>(&self, rt: &H, value: SlowValue) {
        self.list.lock(rt).put(value);
    }

    /// Takes those out that were noted.
    pub fn take<H: Wait>(&self, rt: &H, alloc: Global) -> SlowList {
        mem::replace(&mut *self.list.lock(rt), SlowList::new(alloc))
    }
}
