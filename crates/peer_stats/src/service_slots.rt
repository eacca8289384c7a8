//! Where threads count what becomes of the requests of services. A service has the number of its first group.
//!
//! Several threads count the same, each by one step that adds. Of what a thread has at the moment it adds by how much that has grown,
//! so that a slot has what all threads have together.
ghost use Rattle.std.specs.Prelude.{◌≡◌};

use crate::service_counts::{ConnectCounts, ConnectEnd, ServiceCounts, ServiceHeld, StatusCounts};
use crate::slots::MAX_GROUPS;
use std::sync::atomic::AtomicU64;
use std::sync::atomic::Ordering::SeqCst;

// Where the replies of a service are counted.
#[derive(Default, Drop)]
struct StatusSlot {
    ok: AtomicU64,
    no_such_key: AtomicU64,
    informational: AtomicU64,
    successful: AtomicU64,
    redirection: AtomicU64,
    client_error: AtomicU64,
    server_error: AtomicU64,
}

impl StatusSlot {
    // Where those of this status are counted.
    fn slot(&self, status: u16) -> &AtomicU64 {
        match status {
            200 => &self.ok,
            404 => &self.no_such_key,
            0..=199 => &self.informational,
            201..=299 => &self.successful,
            300..=399 => &self.redirection,
            400..=499 => &self.client_error,
            _ => &self.server_error,
        }
    }

    fn read(&self) -> StatusCounts {
        StatusCounts {
            ok: self.ok.load(SeqCst),
            no_such_key: self.no_such_key.load(SeqCst),
            informational: self.informational.load(SeqCst),
            successful: self.successful.load(SeqCst),
            redirection: self.redirection.load(SeqCst),
            client_error: self.client_error.load(SeqCst),
            server_error: self.server_error.load(SeqCst),
        }
    }
}

// Where the attempts to connect to a service are counted.
#[derive(Default, Drop)]
struct ConnectSlot {
    made: AtomicU64,
    refused: AtomicU64,
    late: AtomicU64,
    failed: AtomicU64,
}

impl ConnectSlot {
    // Where those are counted that ended so.
    fn slot(&self, end: ConnectEnd) -> &AtomicU64 {
        match end {
            ConnectEnd::Made => &self.made,
            ConnectEnd::Refused => &self.refused,
            ConnectEnd::Late => &self.late,
            ConnectEnd::Failed => &self.failed,
        }
    }

    fn read(&self) -> ConnectCounts {
        ConnectCounts {
            made: self.made.load(SeqCst),
            refused: self.refused.load(SeqCst),
            late: self.late.load(SeqCst),
            failed: self.failed.load(SeqCst),
        }
    }
}

// Where is added up what threads have of a service.
#[derive(Default, Drop)]
struct HeldSlot {
    busy: AtomicU64,
    kept: AtomicU64,
    waiting: AtomicU64,
    used: AtomicU64,
    resting: AtomicU64,
}

// Adds by how much a number of one thread has grown, or takes off by how much it has fallen.
fn move_by(cell: &AtomicU64, before: u64, now: u64) {
    if before != now {
        cell.fetch_add(now.wrapping_sub(before), SeqCst);
    }
}

impl HeldSlot {
    fn move_by(&self, before: ServiceHeld, now: ServiceHeld) {
        move_by(&self.busy, before.busy, now.busy);
        move_by(&self.kept, before.kept, now.kept);
        move_by(&self.waiting, before.waiting, now.waiting);
        move_by(&self.used, before.used, now.used);
        move_by(&self.resting, before.resting, now.resting);
    }

    fn read(&self) -> ServiceHeld {
        ServiceHeld {
            busy: self.busy.load(SeqCst),
            kept: self.kept.load(SeqCst),
            waiting: self.waiting.load(SeqCst),
            used: self.used.load(SeqCst),
            resting: self.resting.load(SeqCst),
        }
    }
}

// Where is counted of one service.
#[derive(Default, Drop)]
struct ServiceSlot {
    held: HeldSlot,
    connects: ConnectSlot,
    replies: StatusSlot,
    second_requests: AtomicU64,
    lookups_ok: AtomicU64,
    lookups_failed: AtomicU64,
}

/// Where is counted of services, by their numbers modulo 64.
#[derive(Default, Drop)]
pub struct ServiceSlots {
    each: [ServiceSlot; MAX_GROUPS],
}

impl ServiceSlots {
    // The slot of the service with this number.
    fn of(&self, service: usize) -> &ServiceSlot {
        &self.each[service % MAX_GROUPS]
    }

    /// A thread has so much of a service now, and told before that it had that.
    pub fn move_held(&self, service: usize, before: ServiceHeld, now: ServiceHeld) {
        self.of(service).held.move_by(before, now);
    }

    /// An attempt to connect to a service ended so.
    pub fn count_connect(&self, service: usize, end: ConnectEnd) {
        self.of(service).connects.slot(end).fetch_add(1, SeqCst);
    }

    /// A service gave a reply with this status.
    pub fn count_reply(&self, service: usize, status: u16) {
        self.of(service).replies.slot(status).fetch_add(1, SeqCst);
    }

    /// A request to a service is made once more.
    pub fn count_second_request(&self, service: usize) {
        self.of(service).second_requests.fetch_add(1, SeqCst);
    }

    /// The name of a service was looked up, and had addresses or had none.
    pub fn count_lookup(&self, service: usize, is_found: bool) {
        let slot = self.of(service);
        let cell = if is_found {
            &slot.lookups_ok
        } else {
            &slot.lookups_failed
        };
        cell.fetch_add(1, SeqCst);
    }

    /// What was counted of the service with this number, which has this name.
    pub fn read<'n>(&self, service: usize, name: &'n [u8]) -> ServiceCounts<'n>
        ensures { result.name ≡ name.entry }
    {
        let slot = self.of(service);
        ServiceCounts {
            name,
            held: slot.held.read(),
            connects: slot.connects.read(),
            replies: slot.replies.read(),
            second_requests: slot.second_requests.load(SeqCst),
            lookups_ok: slot.lookups_ok.load(SeqCst),
            lookups_failed: slot.lookups_failed.load(SeqCst),
        }
    }
}
