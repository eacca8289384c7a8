//! What the system reports of a stream.

use mio::event::Event;

/// What the system reported of a stream, and no call has found otherwise since.
#[derive(Clone, Copy)]
pub struct Readiness {
    pub readable: bool,
    pub writable: bool,
    /// The other side sends no more.
    pub read_closed: bool,
}

impl Readiness {
    /// Nothing was reported.
    pub fn unknown() -> Readiness {
        Readiness {
            readable: false,
            writable: false,
            read_closed: false,
        }
    }

    /// Notes what was reported.
    pub fn note(&mut self, event: &Event) {
        self.readable |= event.is_readable() || event.is_read_closed() || event.is_error();
        self.writable |= event.is_writable() || event.is_error();
        self.read_closed |= event.is_read_closed() || event.is_error();
    }
}
