//! What the page is told of services: what the thread has of each, and what becomes of its connections and requests.
//!
//! It stands on the numbers of the thread's own parts. It promises nothing that contracts see: that each is told is tested.

use super::{Fetcher, Place};
use peer_origin::{FetchFault, Wires};
use peer_runtime::Network;
use peer_source::Source;
use peer_stats::{ConnectEnd, ServiceHeld};
use peer_value::Event as Befell;

impl<'a, S: Source, H: Network + Wires> Fetcher<'a, S, H> {
    // What it has by the endpoint with this number: connections that are kept to it, keys that wait for it, and of a service whose
    // first one it is all else.
    fn held_by(&self, number: usize) -> ServiceHeld {
        let kept = self.connections.kept_count(number) as u64;
        let waiting = self.waiting.count_of(number) as u64;
        if self.shares.service(number) != number {
            return ServiceHeld {
                kept,
                waiting,
                ..ServiceHeld::NONE
            };
        }
        let resting = self.books.rested(number);
        ServiceHeld {
            busy: self.shares.of_service(number) as u64,
            kept,
            waiting,
            used: self.books.count(number).saturating_sub(resting) as u64,
            resting: resting as u64,
        }
    }

    /// Tells what it has of each service, if that has changed.
    pub fn tell_held(&mut self) {
        for number in 0..self.told.len() {
            let now = self.held_by(number);
            let before = self.told[number];
            if before != now {
                let service = self.shares.service(number);
                self.services.move_held(service, before, now);
                self.told[number] = now;
            }
        }
    }

    /// A connection to an address was made.
    pub(super) fn note_connected(&mut self, place: Place) {
        self.services.count_connect(place.service, ConnectEnd::Made);
        self.note_event(place, Befell::Connected);
    }

    /// None was made, for this reason.
    pub(super) fn note_unconnected(&mut self, place: Place, end: ConnectEnd) {
        self.services.count_connect(place.service, end);
        self.note_event(place, Befell::Unreached);
    }

    /// A request for a value of the endpoint with this number is made once more.
    pub(super) fn note_second_request(&self, number: usize) {
        self.services
            .count_second_request(self.shares.service(number));
    }

    /// What came for a value of the endpoint with this number is a reply with a status, or none.
    pub(super) fn note_reply(&self, number: usize, fault: Option<FetchFault>) {
        let service = self.shares.service(number);
        match fault {
            None => self.services.count_reply(service, 200),
            Some(FetchFault::Status(status)) => self.services.count_reply(service, status),
            Some(_) => {}
        }
    }
}
