//! The list of every flight that was led, with what each brought.
ghost use Rattle.std.specs.Prelude.{◌≡◌, ◌↔◌, true, IsTrue, MatchOption};
ghost use Rattle.peer_flight.specs.SingleFlight.{place_of};
ghost use Rattle.peer_flight.specs.World.{new_flight};
ghost use Rattle.flight_world.specs.Views.{Brings, BringsNothing, outcome_by};

use crate::ticket::Ticket;
use peer_flight::{Flight, Place};
use peer_source::{Fill, Source};
use std::marker::Model;

/// A flight with what it brought.
#[derive(Drop)]
pub struct FlightEntry<S: Source> {
    flight: Flight<S>,
    fill: Option<Fill<S>>,
    spent: bool,
    pub(crate) taken: u64,
    pub(crate) sets: u64,
    pub(crate) landed: u64,
}

impl<S: Source> Model for FlightEntry<S> {
    ghost use Rattle.peer_flight.specs.World.{Flight};
    ghost use Rattle.flight_world.specs.Views.{outcome_of};

    ghost Value = { Flight };

    ghost view = { λ f. record {
      place = f.flight.place;
      outcome = outcome_of f.fill;
      spent = f.spent;
      taken = f.taken;
      sets = f.sets;
      landed = f.landed;
    } };
}

impl<S: Source> FlightEntry<S> {
    /// A flight that was just led.
    pub(crate) fn new(flight: Flight<S>) -> FlightEntry<S>
        ensures { result ≡ new_flight flight.place }
    {
        FlightEntry {
            flight,
            fill: None,
            spent: false,
            taken: 0,
            sets: 0,
            landed: 0,
        }
    }

    pub(crate) fn place(&self) -> &Place
        ensures { result.now ≡ self.now.place }
    {
        self.flight.place()
    }

    /// Whether the fill is of its place.
    pub(crate) fn is_of(&self, fill: &Fill<S>) -> bool
        ensures { IsTrue result ↔ (self.now.place ≡ place_of fill.now.group fill.now.key) }
    {
        fill.group() == self.flight.group() && fill.key() == self.flight.key()
    }

    /// Spends its right for this fill.
    pub(crate) fn spend(&mut self, fill: Fill<S>)
        ensures { self.new ≡ record self.old { outcome = outcome_by fill.answer; spent = true } }
    {
        self.fill = Some(fill);
        self.spent = true;
    }
}

/// What the flight of this ticket brought.
pub(crate) fn brought<'a, S: Source>(
    ticket: &Ticket,
    flights: &'a [FlightEntry<S>],
) -> Option<&'a Fill<S>>
    ensures { MatchOption result (BringsNothing flights.now ticket.now) (λ fill. Brings flights.now ticket.now fill.now) }
{
    let number = ticket.flight?;
    let flight = flights.get(number as usize)?;
    flight.fill.as_ref()
}
