//! What is noted of the replies that are put: they are counted, and each is told to an access log, if there is one.
//!
//! It stands on the ring of `peer_access`. It promises nothing that contracts see: what a record says is tested.

use crate::marks::{Caller, Mark};
use crate::outgoing::look_once;
use crate::reply_counts::ReplyCounts;
use peer_access::{Asked, RecordsIn, ReplyRecord, TextStart};
use peer_reply::Fault;
use peer_source::{Outcome, Source};
use peer_wish::Body;
use std::time::Duration;

// Where the records of replies are put.
#[derive(Drop)]
struct Told {
    ring: RecordsIn,
    // How long after the beginning of 1970 the loop began.
    begun: Duration,
}

/// What is noted of the replies of a loop's connections.
#[derive(Drop)]
pub struct ReplyNotes {
    pub counts: ReplyCounts,
    told: Option<Told>,
}

// The status of the reply to a fault.
fn fault_status(fault: &Fault) -> u16 {
    match fault {
        Fault::TooLong => 431,
        Fault::TransferCoding => 501,
        Fault::Content => 413,
        Fault::Method => 405,
        Fault::Outside | Fault::NoGroup(_) => 404,
        _ => 400,
    }
}

// The status of the reply to a ticket with this body, whose fill is there.
fn status_of<S: Source>(body: &Body<S>) -> u16 {
    match body {
        Body::Fault(fault) => fault_status(fault),
        Body::Claim(claim) => match look_once(claim) {
            Some(fill) if matches!(fill.outcome(), Outcome::Found(_)) => 200,
            _ => 500,
        },
    }
}

// What a ticket with this body asked for.
fn asked_of<S: Source>(body: &Body<S>) -> Asked {
    match body {
        Body::Fault(Fault::NoGroup(name)) => Asked::NoGroup(TextStart::of(name.as_slice())),
        Body::Fault(_) => Asked::Nothing,
        Body::Claim(claim) => {
            let key = TextStart::of(claim.key().as_slice());
            Asked::Key(claim.group().number, key)
        }
    }
}

impl Told {
    // Puts the record of a reply.
    fn put<S: Source>(&mut self, body: &Body<S>, mark: Mark, caller: Caller, bytes: usize) {
        self.ring.put(ReplyRecord {
            time: self.begun.saturating_add(caller.now),
            client: caller.address,
            asked: asked_of(body),
            status: status_of(body),
            bytes,
            found: mark.found,
            took: caller.now.saturating_sub(mark.came),
        });
    }
}

impl ReplyNotes {
    /// No reply was put. Those that are have records in this ring, if there is one.
    pub fn new(ring: Option<RecordsIn>) -> ReplyNotes {
        let told = match ring {
            Some(ring) => Some(Told {
                ring,
                begun: Duration::ZERO,
            }),
            None => None,
        };
        ReplyNotes {
            counts: ReplyCounts::NONE,
            told,
        }
    }

    /// Whether replies have records.
    pub fn has_records(&self) -> bool {
        self.told.is_some()
    }

    /// The loop began so long after the beginning of 1970.
    pub fn tell_begun(&mut self, begun: Duration) {
        if let Some(told) = &mut self.told {
            told.begun = begun;
        }
    }

    /// How many records were dropped since this was asked last.
    pub fn take_dropped(&mut self) -> u64 {
        match &mut self.told {
            Some(told) => told.ring.take_dropped(),
            None => 0,
        }
    }

    /// The reply of a ticket with this body was put, with so many bytes of content.
    pub(crate) fn note<S: Source>(
        &mut self,
        body: &Body<S>,
        marked: Option<(Mark, Caller)>,
        bytes: usize,
    ) {
        self.counts.count(body);
        if let (Some(told), Some((mark, caller))) = (&mut self.told, marked) {
            told.put(body, mark, caller, bytes);
        }
    }
}
