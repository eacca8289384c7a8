//! The reader's side of a connection: from requests to tickets.
//!
//! It stands on the pool of `peer_fill` and the lanes of `peer_lane`. It promises a ticket for each request that came, in
//! order, each that has group and key after it was asked for; nothing is read behind a request that closes.
ghost use Rattle.std.specs.Prelude.{◌≡◌, ℕ, ◌+◌, List, Option, [], ◌∷◌, OnOk, OnErr};
ghost use Rattle.peer_fill.specs.Pools.{source_of, IsConnSeatOf};
ghost use Rattle.peer_head.specs.Blocks.{IsUnfinished};
ghost use Rattle.peer_wish.specs.Known.{IsKnown};
ghost use Rattle.peer_conn.specs.Requests.{Reads};
ghost use Rattle.peer_conn.specs.ReaderSides.{PutsTickets, TakesRequests};

use crate::end::ReaderStop;
use crate::requests::{NextRequest, Requests};
use peer_fill::{ConnSeat, Pool};
use peer_flight::AskFault;
use peer_lane::{LaneIn, Signal};
use peer_reply::{Wish, WishBody};
use peer_source::{Names, Source};
use peer_view::PeerRead;
use peer_wish::{Body, Ticket};
use std::sync::Wait;
use std::sync::ledger::Ledger;

/// What the reader works with.
#[derive(Drop)]
pub(crate) struct ReaderSide<S: Source, L: Ledger, R: PeerRead + Drop> {
    pub(crate) seat: ConnSeat<S, L>,
    pub(crate) lane: LaneIn<S>,
    pub(crate) requests: Requests<R>,
}

/// The reader's side, once it is done, and what stopped it.
#[derive(Drop)]
pub(crate) struct StoppedReader<S: Source, L: Ledger, R: PeerRead + Drop> {
    pub(crate) side: ReaderSide<S, L, R>,
    pub(crate) stop: ReaderStop,
}

impl<S: Source, L: Ledger, R: PeerRead + Drop> ReaderSide<S, L, R> {
    /// Puts a ticket for each request, until one closes or no more come.
    pub(crate) fn take_requests<H: Wait>(
        &mut self,
        rt: &H,
        pool: &Pool<S, L>,
        names: &Names<'_, S>,
        signal: &Signal,
    ) -> ReaderStop
        requires seat { IsConnSeatOf pool.now self.old.seat }
        requires names { names.now ≡ source_of pool.now }
        ensures { TakesRequests (S.number_of names.now) pool.now self.old self.new result }
    {
        loop {
            match self.requests.next_held(names) {
                NextRequest::Request(wish) => match self.put(rt, pool, signal, wish) {
                    Ok(()) => continue,
                    Err(fault) => return ReaderStop::Refused(fault),
                },
                NextRequest::Last(wish) => match self.put(rt, pool, signal, wish) {
                    Ok(()) => return ReaderStop::Closed,
                    Err(fault) => return ReaderStop::Refused(fault),
                },
                NextRequest::Need => match self.read(signal) {
                    Ok(()) => continue,
                    Err(stop) => return stop,
                },
                NextRequest::NoMemory => return ReaderStop::Refused(AskFault::Memory),
            }
        }
    }

    // Reads once, unless the writer needs no more.
    fn read(&mut self, signal: &Signal) -> Result<(), ReaderStop>
        requires { IsUnfinished self.old.requests.held.held }
        ensures seat { self.new.seat ≡ self.old.seat }
        ensures lane { self.new.lane ≡ self.old.lane }
        ensures reads { (numbers : List ℕ → Option ℕ) → Reads numbers self.old.requests self.new.requests result }
        ensures left { OnOk result (self.new.requests.left + 1 ≡ self.old.requests.left) }
    {
        if signal.is_stopped() {
            return Err(ReaderStop::Stopped);
        }
        self.requests.read()
    }

    // Asks for a wish that has group and key, puts its ticket, and waits while the lane is full.
    fn put<H: Wait>(
        &mut self,
        rt: &H,
        pool: &Pool<S, L>,
        signal: &Signal,
        wish: Wish,
    ) -> Result<(), AskFault>
        requires seat { IsConnSeatOf pool.now self.old.seat }
        requires known { IsKnown (S.count (source_of pool.now)) wish.body }
        ensures requests { self.new.requests ≡ self.old.requests }
        ensures put { OnOk result (PutsTickets pool.now self.old.seat self.new.seat self.old.lane self.new.lane (wish ∷ [])) }
        ensures refused { OnErr result (PutsTickets pool.now self.old.seat self.new.seat self.old.lane self.new.lane []) }
    {
        let Wish {
            body,
            closing,
            bare,
        } = wish;
        let alloc = self.requests.alloc;
        let body = match body {
            WishBody::Fault(fault) => Body::Fault(fault),
            WishBody::Get(group, key) => {
                Body::Claim(pool.ask(rt, alloc, &mut self.seat, group, key)?)
            }
        };
        let ticket = Ticket {
            closing,
            bare,
            body,
        };
        self.lane.put_waiting(rt, signal, ticket);
        Ok(())
    }
}
