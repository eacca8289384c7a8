//! The addresses of each service that a thread fetches from, with the time at which they were read last.
//!
//! It stands on the addresses of one service (`AddressBook`), and promises nothing more than that does. A service has the number of
//! its first endpoint (`Shares::service`).

use peer_origin::FetchSettings;
use peer_value::{AddressBook, Event};
use std::alloc::{AllocError, Global};
use std::net::SocketAddr;
use std::time::Duration;

// After how many seconds the addresses of a service are read again, since its name may have got others.
const SECONDS_OF_READING: u64 = 1;

// The addresses of one service.
#[derive(Drop)]
struct Page {
    book: AddressBook,
    // When they are to be read again.
    stale: Duration,
}

/// The addresses of all services.
#[derive(Drop)]
pub struct Books {
    each: Vec<Page>,
}

impl Books {
    /// No address of the services of so many endpoints is known.
    pub fn new(
        alloc: Global,
        endpoints: usize,
        settings: &FetchSettings,
    ) -> Result<Books, AllocError> {
        let mut each = Vec::with_capacity(alloc, endpoints)?;
        for _ in 0..endpoints {
            each.push(Page {
                book: AddressBook::new(alloc, settings.rest_after, settings.rest),
                stale: Duration::ZERO,
            })?;
        }
        Ok(Books { each })
    }

    /// Whether the addresses of a service are to be read before it is asked.
    pub fn is_stale(&self, service: usize, now: Duration) -> bool {
        match self.each.get(service) {
            Some(page) => page.stale <= now,
            None => false,
        }
    }

    /// These are the addresses of a service now. Whether one that it had is gone.
    pub fn update(
        &mut self,
        service: usize,
        found: &[SocketAddr],
        now: Duration,
    ) -> Result<bool, AllocError> {
        let Some(page) = self.each.get_mut(service) else {
            return Ok(false);
        };
        page.stale = now.saturating_add(Duration::from_secs(SECONDS_OF_READING));
        page.book.update(found)
    }

    /// How many addresses a service has.
    pub fn count(&self, service: usize) -> usize {
        match self.each.get(service) {
            Some(page) => page.book.len(),
            None => 0,
        }
    }

    /// How many addresses of a service rest, or have rested and were not tried since.
    pub fn rested(&self, service: usize) -> usize {
        match self.each.get(service) {
            Some(page) => page.book.rested(),
            None => 0,
        }
    }

    /// Whether this is an address of a service.
    pub fn has(&self, service: usize, address: SocketAddr) -> bool {
        match self.each.get(service) {
            Some(page) => page.book.has(address),
            None => false,
        }
    }

    /// Whether a service has another address than this one that does not rest.
    pub fn has_other(&self, service: usize, address: SocketAddr, now: Duration) -> bool {
        match self.each.get(service) {
            Some(page) => page.book.has_other(address, now),
            None => false,
        }
    }

    /// The address of a service whose turn it is.
    pub fn next(&mut self, service: usize, now: Duration) -> Option<SocketAddr> {
        self.each.get_mut(service)?.book.next(now)
    }

    /// An event befell a connection or a value at an address of a service.
    pub fn note(&mut self, service: usize, address: SocketAddr, event: Event, now: Duration) {
        if let Some(page) = self.each.get_mut(service) {
            page.book.note(address, event, now);
        }
    }
}
