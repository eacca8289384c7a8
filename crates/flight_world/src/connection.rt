//! Connections: a reader's hand, a lane, and a writer.
ghost use Rattle.std.specs.Prelude.{◌≡◌, ◌≢◌, ◌↔◌, ℕ, true, IfOk, IsTrue, OnErr, IsErrOf, IsSomeAnd, MatchBool, MatchOption, replicate};
ghost use Rattle.peer_flight.specs.World.{Ticket, WithTicket, WithRight, new_connection};
ghost use Rattle.peer_flight.specs.Events.{MayArrive, MayWant, PutsHand, PutsReady, TakesTicket, SeesOutcome};
ghost use Rattle.flight_world.specs.Calls.{WhereAllowed};
ghost use Rattle.peer_flight.specs.SingleFlight.{IsSame};
ghost use Rattle.flight_world.specs.Views.{SeesNone, WantsAt, hand_of};

use crate::entry::{FlightEntry, brought};
use crate::ticket::{Hand, Ticket, Written};
use crate::wish::Wish;
use peer_flight::{Ask, AskFault, Table};
use peer_source::{Outcome, Source};
use peer_wish::{MAX_REPLIES, MAX_TICKETS};
use std::alloc::{AllocError, Global};
use std::collections::VecDeque;
use std::marker::Model;
use std::mem;

/// A connection: its reader's hand, its lane, and what its writer took and wrote.
#[derive(Drop)]
pub struct Connection<S: Source> {
    arrived: Vec<Wish>,
    hand: Hand,
    lane: VecDeque<Ticket>,
    waiting: VecDeque<Ticket>,
    written: Vec<Written<S>>,
    ended: bool,
}

impl<S: Source> Model for Connection<S> {
    ghost use Rattle.peer_flight.specs.World.{Connection};
    ghost use Rattle.flight_world.specs.Views.{hand_of};

    ghost Value = { Connection };

    ghost view = { λ c. record {
      arrived = c.arrived.items;
      hand = hand_of c.hand;
      lane = c.lane.items;
      waiting = c.waiting.items;
      written = c.written.items;
      ended = c.ended;
    } };
}

impl<S: Source> Connection<S> {
    ghost use Rattle.peer_flight.specs.Tables.{IsWorn, state_of};

    /// One at which nothing arrived.
    pub(crate) fn new(alloc: Global) -> Connection<S>
        ensures { result ≡ new_connection }
    {
        Connection {
            arrived: Vec::new(alloc),
            hand: Hand::Empty,
            lane: VecDeque::new(alloc),
            waiting: VecDeque::new(alloc),
            written: Vec::new(alloc),
            ended: false,
        }
    }

    // Whether another wish may arrive.
    fn may_arrive(&self) -> bool
        ensures { IsTrue result ↔ MayArrive self.now }
    {
        matches!(self.hand, Hand::Empty)
            && (self.arrived.len() as u64) < MAX_REPLIES
            && self.arrived.iter().all(|wish| !wish.is_closing())
    }

    /// A wish with a place arrives at the empty hand, and joins or leads a flight.
    pub(crate) fn want(
        &mut self,
        alloc: Global,
        table: &mut Table<S>,
        flights: &mut Vec<FlightEntry<S>>,
        wish: Wish,
    ) -> Result<bool, AskFault>
        ensures wanted { IfOk result (λ wanted. MatchBool wanted
            (WantsAt wish (state_of table.old) (state_of table.new) flights.old.items flights.new.items self.old self.new)
            (¬ (MayWant self.old wish))) }
        ensures stays { result ≢ Ok true → IsSame (state_of table.old) (state_of table.new)
            × (flights.new.items ≡ flights.old.items) × (self.new ≡ self.old) }
        ensures worn { IsErrOf result AskFault.Worn → IsSomeAnd wish.place (IsWorn (state_of table.old)) }
        ensures room { IsSomeAnd wish.place (IsWorn (state_of table.old)) → result ≢ Ok true }
    {
        if !self.may_arrive() {
            return Ok(false);
        }
        let Some(place) = &wish.place else {
            return Ok(false);
        };
        let share = wish.share()?;
        self.arrived.reserve(1)?;
        flights.reserve(1)?;
        match table.want(alloc, place.group(), place.key())? {
            Ask::Joined(flight) => {
                let flight = Some(flight.number());
                self.arrived.push_reserved(share);
                self.hold(Hand::WithTicket(Ticket { wish, flight }));
            }
            Ask::Led(flight, _right) => {
                let number = flight.number();
                flights.push_reserved(FlightEntry::new(flight));
                let flight = Some(number);
                self.arrived.push_reserved(share);
                self.hold(Hand::WithRight(Ticket { wish, flight }, number));
            }
        }
        Ok(true)
    }

    // Takes this into the hand.
    fn hold(&mut self, hand: Hand)
        ensures { self.new ≡ record self.old { hand = hand_of hand } }
    {
        self.hand = hand;
    }

    /// Takes the right out of the hand, and leaves the ticket.
    pub(crate) fn take_right(&mut self) -> Option<u64>
        ensures { MatchOption result ((self.new ≡ self.old) × ((t : Ticket) → (m : ℕ) → self.old.hand ≢ WithRight t m))
            (λ number. (t : Ticket) × (self.old.hand ≡ WithRight t number) × (self.new ≡ record self.old { hand = WithTicket t })) }
    {
        match mem::replace(&mut self.hand, Hand::Empty) {
            Hand::WithRight(ticket, number) => {
                self.hand = Hand::WithTicket(ticket);
                Some(number)
            }
            other => {
                self.hand = other;
                None
            }
        }
    }

    /// Lane put, of the ticket in the hand.
    pub(crate) fn put_ticket(&mut self) -> Result<bool, AllocError>
        ensures put { IfOk result (λ put. WhereAllowed put PutsHand self.old self.new) }
        ensures refused { OnErr result (self.new ≡ self.old) }
    {
        if self.lane.len() >= MAX_TICKETS {
            return Ok(false);
        }
        self.lane.reserve(1)?;
        match mem::replace(&mut self.hand, Hand::Empty) {
            Hand::WithTicket(ticket) => {
                self.lane.push_back_reserved(ticket);
                Ok(true)
            }
            other => {
                self.hand = other;
                Ok(false)
            }
        }
    }

    /// Lane put, of a wish that is a fault or a hit.
    pub(crate) fn put_ready(&mut self, wish: Wish) -> Result<bool, AllocError>
        ensures put { IfOk result (λ put. WhereAllowed put (PutsReady wish) self.old self.new) }
        ensures refused { OnErr result (self.new ≡ self.old) }
    {
        if self.lane.len() >= MAX_TICKETS || !self.may_arrive() {
            return Ok(false);
        }
        let share = wish.share()?;
        self.arrived.reserve(1)?;
        self.lane.reserve(1)?;
        self.arrived.push_reserved(share);
        self.lane.push_back_reserved(Ticket { wish, flight: None });
        Ok(true)
    }

    /// Lane taken: a ticket that names a flight waits, and a ready one is answered at once.
    pub(crate) fn take_ticket(&mut self) -> Result<bool, AllocError>
        ensures took { IfOk result (λ took. WhereAllowed took TakesTicket self.old self.new) }
        ensures refused { OnErr result (self.new ≡ self.old) }
    {
        if !self.ended && !self.waiting.is_empty() {
            return Ok(false);
        }
        self.waiting.reserve(1)?;
        self.written.reserve(1)?;
        let Some(ticket) = self.lane.pop_front() else {
            return Ok(false);
        };
        if self.ended || ticket.flight.is_some() {
            self.waiting.push_back_reserved(ticket);
        } else {
            self.written.push_reserved(Written { ticket, fill: None });
        }
        Ok(true)
    }

    /// Outcome seen, of the first ticket that waits: the reply is written, or the writer ends for want of memory.
    pub(crate) fn see_outcome(&mut self, flights: &[FlightEntry<S>]) -> Result<bool, AllocError>
        ensures seen { IfOk result (λ seen. MatchBool seen (SeesOutcome flights.now self.old self.new)
            ((self.new ≡ self.old) × SeesNone flights.now self.old)) }
        ensures refused { OnErr result (self.new ≡ self.old) }
    {
        if self.ended {
            return Ok(false);
        }
        let Some(ticket) = self.waiting.front() else {
            return Ok(false);
        };
        let Some(fill) = brought(ticket, flights) else {
            return Ok(false);
        };
        if let Outcome::NoMemory = fill.outcome() {
            self.ended = true;
            return Ok(true);
        }
        let fill = Some(fill.share()?);
        self.written.reserve(1)?;
        let Some(ticket) = self.waiting.pop_front() else {
            unreachable!()
        };
        self.written.push_reserved(Written { ticket, fill });
        Ok(true)
    }
}

/// So many connections at which nothing arrived.
pub(crate) fn new_connections<S: Source>(
    alloc: Global,
    count: usize,
) -> Result<Vec<Connection<S>>, AllocError>
    ensures { IfOk result (λ connections. connections.items ≡ replicate count new_connection) }
{
    let mut connections = Vec::new(alloc);
    for _made in 0..count {
        connections.push(Connection::new(alloc))?;
    }
    Ok(connections)
}
