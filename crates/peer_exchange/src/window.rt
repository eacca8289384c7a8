//! How many tickets of an exchange may wait.
//!
//! It stands on the number of tickets of `peer_wish`. It promises 1 to 64, by the lengths of the replies that were put.
ghost use Rattle.std.specs.Prelude.{◌≡◌, ◌≤◌, ◌*◌};
ghost use Rattle.peer_exchange.specs.Windows.{window_after};

use peer_wish::MAX_TICKETS;
use std::cmp::{max, min};

/// Where so many bytes wait to be sent, nothing is asked or put until some were sent.
pub(crate) const MAX_UNSENT: usize = 65_536;

/// How many tickets may wait.
#[derive(Drop)]
pub(crate) struct Window {
    pub(crate) tickets: usize,
    ghost some: { 1 ≤ tickets },
    ghost few: { tickets ≤ 64 },
}

// How many may wait behind a reply of `len` bytes, where `tickets` might before. As in TCP's slow start it grows with what
// was put: a client of large values that reads none has one ticket that waits.
fn tickets_after(len: usize, tickets: usize) -> usize
    requires { tickets ≤ 64 }
    ensures { result ≡ window_after len tickets }
{
    let fill = MAX_UNSENT / max(len, 1);
    max(min(fill, min(2 * tickets, MAX_TICKETS)), 1)
}

impl Window {
    ghost use Rattle.std.specs.Prelude.{◌≡◌};
    ghost use Rattle.peer_exchange.specs.Windows.{window_after};

    /// One ticket.
    pub(crate) fn new() -> Window
        ensures { result.tickets ≡ 1 }
    {
        Window { tickets: 1 }
    }

    /// A reply of `len` bytes was put.
    pub(crate) fn put(&mut self, len: usize)
        ensures { self.new.tickets ≡ window_after len self.old.tickets }
    {
        self.tickets = tickets_after(len, self.tickets);
    }
}
