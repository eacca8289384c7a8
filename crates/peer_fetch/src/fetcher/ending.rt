//! How a value ended on a connection: what its address is told of it, and whether the connection is kept for another value.
//!
//! It stands on the addresses of each service (`Books`) and the connections of the thread. It promises nothing that contracts see:
//! that an address is told what befell it is tested.

use super::{Fetcher, Place};
use crate::link::Reusable;
use peer_origin::{FetchFault, Wires};
use peer_runtime::Network;
use peer_source::Source;
use peer_stats::ConnectEnd;
use peer_value::Event as Befell;

impl<'a, S: Source, H: Network + Wires> Fetcher<'a, S, H> {
    /// Notes what befell a connection or a value at an address.
    pub(super) fn note_event(&mut self, place: Place, befell: Befell) {
        let now = self.connections.now();
        self.books.note(place.service, place.address, befell, now);
    }

    // Keeps a connection for another value, in the place of an older one where too many are kept.
    fn keep(&mut self, key: usize, reusable: Reusable) {
        // Before it is kept itself, so that it is not the one that goes.
        if self.connections.len().saturating_sub(self.shares.total()) > self.settings.under_way {
            self.connections.forget_oldest();
        }
        self.connections.keep(key, reusable);
    }

    /// Keeps a connection whose value is done, or lets it go. If its service has its address no longer, it goes.
    pub(super) fn release(&mut self, key: usize, place: Place, reusable: Option<Reusable>) {
        let stays = !self.settings.fetch.connection_for_each
            && self.books.has(place.service, place.address);
        match reusable {
            Some(reusable) if stays => self.keep(key, reusable),
            _ => self.connections.forget(key),
        }
    }

    /// Notes how a value ended on a connection. If it was late, its host may be gone without a word, so that all connections that
    /// are kept to it go. So is one whose status came in time, and the rest of whose reply did not.
    pub(super) fn note_end(&mut self, place: Place, fault: Option<FetchFault>, is_late: bool) {
        let befell = match fault {
            Some(FetchFault::Late) => Befell::Late,
            Some(FetchFault::Status(_)) if is_late => Befell::Late,
            Some(FetchFault::Unreached) => Befell::Unreached,
            _ => Befell::Answered,
        };
        if befell == Befell::Unreached {
            self.services.count_connect(place.service, ConnectEnd::Late);
        }
        self.note_reply(place.service, fault);
        self.note_event(place, befell);
        if befell == Befell::Late {
            self.connections.forget_kept_to(place.address);
        }
    }
}
