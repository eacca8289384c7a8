//! Tickets: wishes in their turn, in a reader's hand, and as they are answered.
use crate::wish::Wish;
use peer_source::{Fill, Source};
use std::marker::Model;

/// A wish in its turn, and the number of the flight that it waits for.
#[derive(Drop)]
pub struct Ticket {
    pub(crate) wish: Wish,
    pub(crate) flight: Option<u64>,
}

impl Model for Ticket {
    ghost use Rattle.peer_flight.specs.World.{Ticket};

    ghost Value = { Ticket };

    ghost view = { λ t. record { wish = t.wish; flight = t.flight } };
}

/// A reader's hand: nothing, a ticket, or a ticket with the right of a flight.
#[derive(Drop)]
pub enum Hand {
    Empty,
    WithTicket(Ticket),
    WithRight(Ticket, u64),
}

/// A reply that was written, with the fill that it was written from.
#[derive(Drop)]
pub struct Written<S: Source> {
    pub(crate) ticket: Ticket,
    pub(crate) fill: Option<Fill<S>>,
}

impl<S: Source> Model for Written<S> {
    ghost use Rattle.peer_flight.specs.World.{Written};
    ghost use Rattle.flight_world.specs.Views.{answer_in};

    ghost Value = { Written };

    ghost view = { λ x. record { ticket = x.ticket; answer = answer_in x.fill } };
}
