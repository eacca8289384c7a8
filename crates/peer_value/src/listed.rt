//! An address of a service, and how it does: how many values in a row were late there, and until when it rests.
//!
//! It stands on the durations of `std`. It promises what each event makes of an address, to the letter.
ghost use Rattle.std.specs.Prelude.{◌≡◌, ◌↔◌, IsTrue, None, cond, is_some};
ghost use Rattle.std.specs.Duration.{as_nanos};
ghost use Rattle.peer_value.specs.Listings.{IsAfter, IsGiven, RestsAt};

use std::net::SocketAddr;
use std::time::Duration;

/// What befell a connection or a value at an address.
#[derive(Clone, Copy, PartialEq, Eq, Debug)]
pub enum Event {
    /// A connection was made.
    Connected,
    /// A reply came, with whatever status, or a broken one.
    Answered,
    /// A value was late on a connection.
    Late,
    /// No connection was made, also not within its time.
    Unreached,
}

/// An address of a service.
#[derive(Clone, Copy, PartialEq, Eq)]
pub struct Listed {
    pub(crate) address: SocketAddr,
    // How many values were late in a row.
    lates: u32,
    // Until when it rests, or rested. None if it does not.
    until: Option<Duration>,
}

impl Listed {
    /// An address of which nothing is known: it does not rest.
    pub(crate) fn new(address: SocketAddr) -> Listed
        ensures address { result.address ≡ address }
        ensures lates { result.lates ≡ 0 }
        ensures awake { result.until ≡ None }
    {
        Listed {
            address,
            lates: 0,
            until: None,
        }
    }

    /// Whether it is this address.
    pub(crate) fn is_at(&self, address: SocketAddr) -> bool
        ensures { IsTrue result ↔ (self.now.address ≡ address) }
    {
        self.address == address
    }

    /// Whether it rests at this time.
    pub(crate) fn rests(&self, now: Duration) -> bool
        ensures { IsTrue result ↔ RestsAt now self.now }
    {
        match self.until {
            Some(until) => now.as_nanos() < until.as_nanos(),
            None => false,
        }
    }

    /// One if it rests, or has rested and was not tried since, and else none.
    pub(crate) fn rested(&self) -> usize
        ensures { result ≡ cond (is_some self.now.until) 1 0 }
    {
        if self.until.is_some() { 1 } else { 0 }
    }

    /// The same once it was given. One whose rest is over is given for one value, and rests for all others until this time.
    pub(crate) fn given(self, until: Duration) -> Listed
        ensures { IsGiven (as_nanos until) self result }
    {
        let Some(_) = self.until else {
            return self;
        };
        Listed {
            address: self.address,
            lates: self.lates,
            until: Some(until),
        }
    }

    /// What an event makes of it. It rests until this time if so many values in a row were late, or no connection was made. A
    /// connection ends a rest for which no connection was made, and a reply one for values that were late.
    pub(crate) fn after(self, event: Event, most: u32, until: Duration) -> Listed
        ensures { IsAfter event most (as_nanos until) self result }
    {
        let Listed {
            address,
            lates,
            until: before,
        } = self;
        let was_late = most <= lates;
        match event {
            Event::Connected if was_late => self,
            Event::Connected => Listed::with(address, lates, None),
            Event::Answered if was_late => Listed::with(address, 0, None),
            Event::Answered => Listed::with(address, 0, before),
            Event::Late => {
                let lates = lates.saturating_add(1);
                let is_late = most <= lates;
                Listed::with(address, lates, if is_late { Some(until) } else { before })
            }
            Event::Unreached => Listed::with(address, lates, Some(until)),
        }
    }

    // The address of these parts.
    fn with(address: SocketAddr, lates: u32, until: Option<Duration>) -> Listed
        ensures address { result.address ≡ address }
        ensures lates { result.lates ≡ lates }
        ensures until { result.until ≡ until }
    {
        Listed {
            address,
            lates,
            until,
        }
    }
}
