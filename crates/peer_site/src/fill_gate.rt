//! What a thread that fills does beside its jobs: it tells the loops of room and of fills, and publishes what it counted.

use crate::mailbox::slot_of;
use crate::mailboxes::Mailboxes;
use peer_fill::Gate;
use peer_source::GroupId;
use peer_stats::{Counters, FillerCounts, FillerSlot};
use std::sync::Wait;

/// The gate of one thread that fills.
#[derive(Clone, Copy)]
pub struct FillGate<'a> {
    mailboxes: &'a Mailboxes,
    // Where this thread publishes, and no other.
    slot: &'a FillerSlot,
}

impl<'a> FillGate<'a> {
    /// The gate of the thread with this number.
    pub fn new(mailboxes: &'a Mailboxes, counters: &'a Counters, number: usize) -> FillGate<'a> {
        FillGate {
            mailboxes,
            slot: counters.of_filler(number),
        }
    }
}

impl<'a> Gate for FillGate<'a> {
    fn after_take<R: Wait>(&self, _rt: &R, _group: GroupId, _key: &[u8]) {
        self.mailboxes.tell_room();
    }

    fn after_put<R: Wait>(&self, _rt: &R, number: u64, _group: GroupId, _key: &[u8]) {
        self.mailboxes.tell(slot_of(number));
    }

    fn after_count(&self, group: GroupId, calls: u64, rehits: u64) {
        let counts = FillerCounts { calls, rehits };
        self.slot.publish(group.number, counts);
    }
}
