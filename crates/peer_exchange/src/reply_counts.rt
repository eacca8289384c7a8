//! The replies that were put, by their status codes.

use crate::outgoing::look_once;
use peer_flight::Claim;
use peer_reply::Fault;
use peer_source::{Fill, Outcome, Source};
use peer_wish::Body;

/// The replies that were put, by their status codes. Those past 2^64 wrap.
#[derive(Clone, Copy, Debug, PartialEq, Eq)]
pub struct ReplyCounts {
    pub ok: u64,
    pub bad_request: u64,
    pub not_found: u64,
    pub not_allowed: u64,
    pub content_too_large: u64,
    pub head_too_large: u64,
    pub failed: u64,
    pub not_implemented: u64,
    /// Those of `not_found` to a request for a group that is not there.
    pub unknown_groups: u64,
}

// One more.
fn raise(count: &mut u64) {
    *count = count.wrapping_add(1);
}

impl ReplyCounts {
    /// No reply was put.
    pub const NONE: ReplyCounts = ReplyCounts {
        ok: 0,
        bad_request: 0,
        not_found: 0,
        not_allowed: 0,
        content_too_large: 0,
        head_too_large: 0,
        failed: 0,
        not_implemented: 0,
        unknown_groups: 0,
    };

    // Counts the reply to a fault.
    fn count_fault(&mut self, fault: &Fault) {
        match fault {
            Fault::TooLong => raise(&mut self.head_too_large),
            Fault::TransferCoding => raise(&mut self.not_implemented),
            Fault::Content => raise(&mut self.content_too_large),
            Fault::Method => raise(&mut self.not_allowed),
            Fault::Outside => raise(&mut self.not_found),
            Fault::NoGroup(_) => {
                raise(&mut self.not_found);
                raise(&mut self.unknown_groups);
            }
            _ => raise(&mut self.bad_request),
        }
    }

    // Counts the reply of a fill.
    fn count_fill<S: Source>(&mut self, fill: &Fill<S>) {
        match fill.outcome() {
            Outcome::Found(_) => raise(&mut self.ok),
            _ => raise(&mut self.failed),
        }
    }

    // Counts the reply of a claim whose fill is there.
    fn count_claim<S: Source>(&mut self, claim: &Claim<S>) {
        if let Claim::Ready(fill) = claim {
            self.count_fill(fill);
        } else if let Some(fill) = look_once(claim) {
            self.count_fill(fill);
        }
    }

    /// Counts the reply of a ticket with this body.
    pub(crate) fn count<S: Source>(&mut self, body: &Body<S>) {
        match body {
            Body::Fault(fault) => self.count_fault(fault),
            Body::Claim(claim) => self.count_claim(claim),
        }
    }
}
