//! The end of a lane where tickets are put.
ghost use Rattle.std.specs.Prelude.{◌≡◌};
ghost use Rattle.peer_flight.specs.Events.{TICKETS};
ghost use Rattle.rtrb.specs.Ring.{producer_capacity};

use crate::signal::Signal;
use peer_source::Source;
use peer_wish::Ticket;
use rtrb::{Producer, PushError};
use std::sync::Wait;

/// Where tickets are put.
#[derive(Drop)]
pub struct LaneIn<S: Source> {
    pub(crate) producer: Producer<Ticket<S>>,
    ghost places: { producer_capacity producer ≡ TICKETS },
}

impl<S: Source> LaneIn<S> {
    ghost use Rattle.std.specs.Prelude.{◌≡◌, ◌+◌, ◌<◌, ◌≤◌, [], ◌∷◌, ◌++◌, IsOk, OnOk, OnErr, IfErr};
    ghost use Rattle.peer_lane.specs.Lanes.{tickets_put, free_places, IsSameIn};

    /// Puts a ticket, or hands it back where the lane is full.
    pub fn put(&mut self, ticket: Ticket<S>) -> Result<(), Ticket<S>>
        ensures lane { IsSameIn self.old self.new }
        ensures put { OnOk result (tickets_put self.new ≡ tickets_put self.old ++ ticket ∷ []) }
        ensures places { OnOk result (free_places self.old ≤ free_places self.new + 1) }

        ensures back { IfErr result (λ t. t ≡ ticket) }
        ensures kept { OnErr result (tickets_put self.new ≡ tickets_put self.old) }
        ensures full { OnErr result (free_places self.new ≡ 0) }
        ensures succeeds { 0 < free_places self.old → IsOk result }
    {
        match self.producer.push(ticket) {
            Ok(()) => Ok(()),
            Err(PushError::Full(back)) => Err(back),
        }
    }

    /// Puts a ticket, and waits while the lane is full.
    pub fn put_waiting<R: Wait>(&mut self, rt: &R, signal: &Signal, ticket: Ticket<S>)
        ensures lane { IsSameIn self.old self.new }
        ensures put { tickets_put self.new ≡ tickets_put self.old ++ ticket ∷ [] }
        ensures places { free_places self.old ≤ free_places self.new + 1 }
    {
        let mut ticket = ticket;
        let mut waiter = signal.waiter();
        for _ in rt.forever() {
            match self.put(ticket) {
                Ok(()) => {
                    // An announcement that still stood would be notified.
                    drop(waiter);
                    return signal.notify();
                }
                Err(back) => ticket = back,
            }
            waiter.pause(rt);
        }
        unreachable!()
    }
}
