//! The addresses of a value's endpoint: they are tried in turn, each for its time.
//!
//! It stands on the addresses of each service (`Books`) and on the streams that begin to connect (`open`). It promises nothing that
//! contracts see: a value for which no address is left is given back.

use super::Fetcher;
use crate::link::{Link, Way};
use crate::opening::{System, open};
use mio::Token;
use mio::net::TcpStream;
use peer_origin::{FetchFault, Wires};
use peer_runtime::Network;
use peer_source::Source;
use peer_stats::ConnectEnd;
use peer_value::{Done, UnderWay};
use std::alloc::AllocError;
use std::cmp::min;
use std::time::Duration;

impl<'a, S: Source, H: Network + Wires> Fetcher<'a, S, H> {
    ghost use Rattle.std.specs.Prelude.{◌≡◌, IfSome};
    ghost use Rattle.peer_value.specs.UnderWays.{IsDoneOn};

    // A stream that begins to connect to the address of a service whose turn it is, of so many at most, and where it leads to. One at
    // which the system lets no stream begin is passed over: the next one has its turn.
    fn open_next(
        &mut self,
        system: &System<'_, H>,
        service: usize,
        now: Duration,
        token: Token,
        most: usize,
    ) -> Option<(TcpStream, Way)>
        ensures { self.new.connections ≡ self.old.connections }
    {
        for left in (0..most).rev() {
            let address = self.books.next(service, now)?;
            if let Some(stream) = open(system, address, token) {
                return Some((stream, Way { address, left }));
            }
            self.services.count_connect(service, ConnectEnd::Failed);
        }
        None
    }

    // When an address is given up that is tried for a value now. If another one does not rest, it has half of the value's time, or
    // else that one would not be tried in it.
    fn connect_due(&self, now: Duration, under: &UnderWay<'a, S>, way: &Way) -> Duration {
        let own = &under.endpoint().own;
        let due = now.saturating_add(own.connect_or(self.settings.fetch.connect));
        let service = self.shares.service(under.number());
        if way.left == 0 || !self.books.has_other(service, way.address, now) {
            return due;
        }
        let left = under.due().saturating_sub(now);
        min(due, now.saturating_add(left / 2))
    }

    /// Reads which addresses the service of a value has, unless that was done within the last second. Connections that are kept to
    /// others are let go.
    pub(super) fn read_addresses(
        &mut self,
        system: &System<'_, H>,
        under: &UnderWay<'a, S>,
    ) -> Result<(), AllocError> {
        let now = self.connections.now();
        let service = self.shares.service(under.number());
        if !self.books.is_stale(service, now) {
            return Ok(());
        }
        let found = under.endpoint().addresses.found(system.rt)?;
        if self.books.update(service, &found, now)? {
            self.forget_gone(service);
        }
        Ok(())
    }

    // Lets connections go that are kept to addresses which a service has no longer.
    fn forget_gone(&mut self, service: usize) {
        for key in self.connections.keys() {
            if let Some((number, address)) = self.connections.kept_at(key) {
                if self.shares.service(number) == service && !self.books.has(service, address) {
                    self.connections.lose(key);
                }
            }
        }
    }

    // Begins to connect to an address for a value, of so many at most. A value that cannot be fetched is given back.
    fn connect(
        &mut self,
        system: &System<'_, H>,
        under: UnderWay<'a, S>,
        most: usize,
    ) -> Option<Done<'a, S>>
        ensures { IfSome result (IsDoneOn H.carried) }
    {
        if !under.is_unused() {
            return Some(under.done(Err(FetchFault::Lost)));
        }
        let now = self.read_clock(system);
        if self.connections.reserve().is_err() {
            return Some(under.done(Err(FetchFault::Memory)));
        }
        let token = self.connections.next_token();
        let service = self.shares.service(under.number());
        let opened = self.open_next(system, service, now, token, most);
        let Some((stream, way)) = opened else {
            return Some(under.done(Err(FetchFault::Unreached)));
        };
        let due = self.connect_due(now, &under, &way);
        self.count_begun(under.number());
        let link = Link::new(system.rt, stream, under, way, due);
        self.connections.add(link);
        None
    }

    /// Begins to connect to the endpoint of a value, to the address whose turn it is.
    pub(super) fn connect_first(
        &mut self,
        system: &System<'_, H>,
        under: UnderWay<'a, S>,
    ) -> Option<Done<'a, S>>
        ensures { IfSome result (IsDoneOn H.carried) }
    {
        let most = self.books.count(self.shares.service(under.number()));
        self.connect(system, under, most)
    }

    /// Tries the next address of the endpoint of a value, whose connection was not reached.
    pub(super) fn connect_next(
        &mut self,
        system: &System<'_, H>,
        key: usize,
        under: UnderWay<'a, S>,
    ) -> Option<Done<'a, S>>
        ensures { IfSome result (IsDoneOn H.carried) }
    {
        match self.connections.forget_unreached(key) {
            Some(way) => self.connect(system, under, way.left),
            None => Some(under.done(Err(FetchFault::Unreached))),
        }
    }
}
