//! What the thread of a loop is handed.

use crate::event_loop::Waits;
use crate::limits::MAX_EVENTS;
use crate::loop_seats::LoopSeats;
use mio::{Events, Poll};
use peer_head::HEAD_LIMIT;
use peer_site::{LoopSite, Mailbox};
use peer_source::Source;
use std::alloc::Global;
use std::net::Net;
use std::sync::ledger::Ledger;

/// What a loop needs beside its seats.
#[derive(Drop)]
pub struct LoopParts {
    pub(crate) waits: Waits,
    // Where streams are read into.
    pub(crate) buffer: Vec<u8>,
}

impl LoopParts {
    /// What a loop needs beside its seats, and its mailbox. None where memory or a descriptor was refused.
    pub fn new<H: Net>(rt: &H, alloc: Global) -> Option<(LoopParts, Mailbox)> {
        let poll = Poll::new(rt).ok()?;
        let mailbox = Mailbox::new(alloc, &poll)?;
        let events = Events::with_capacity(alloc, MAX_EVENTS).ok()?;
        let buffer = vec![in alloc; 0; HEAD_LIMIT].ok()?;
        let waits = Waits { poll, events };
        Some((LoopParts { waits, buffer }, mailbox))
    }
}

/// What the thread of a loop is handed.
#[derive(Drop)]
pub struct LoopWork<'a, S: Source, L: Ledger> {
    pub seats: LoopSeats<S, L>,
    pub parts: LoopParts,
    pub site: LoopSite<'a>,
}
