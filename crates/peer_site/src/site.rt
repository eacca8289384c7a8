//! What the threads of a server share.

use crate::fill_gate::FillGate;
use crate::mailbox::Mailbox;
use crate::mailboxes::Mailboxes;
use crate::occupancy::Occupancy;
use peer_access::RecordRings;
use peer_runtime::{Limits, PollWakers};
use peer_stats::{Counters, LoopSlot};

/// What the threads of a server share.
#[derive(Clone, Copy)]
pub struct Site<'a> {
    pub mailboxes: &'a Mailboxes,
    /// Those of the threads that fetch.
    pub wakers: &'a PollWakers,
    pub occupancy: &'a Occupancy,
    pub limits: &'a Limits,
    pub counters: &'a Counters,
    /// Where loops find the rings of an access log, if there is one.
    pub records: Option<&'a RecordRings>,
}

impl<'a> Site<'a> {
    /// The gate of the thread with this number that fills.
    pub fn gate(&self, number: usize) -> FillGate<'a> {
        FillGate::new(self.mailboxes, self.counters, number)
    }

    /// No more streams are given, and no more jobs are pushed.
    pub fn close(&self) {
        self.mailboxes.close();
        self.wakers.close();
    }
}

/// What a loop shares with other threads.
#[derive(Clone, Copy)]
pub struct LoopSite<'a> {
    pub shared: Site<'a>,
    pub mailbox: &'a Mailbox,
    /// The number of the loop, by which it publishes what it counts.
    pub number: usize,
}

impl<'a> LoopSite<'a> {
    /// Where the loop publishes what it counts, and no other thread.
    pub fn slot(&self) -> &'a LoopSlot {
        self.shared.counters.of_loop(self.number)
    }
}
