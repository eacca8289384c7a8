//! The end of a lane where tickets are taken.
ghost use Rattle.std.specs.Prelude.{◌≡◌};
ghost use Rattle.peer_flight.specs.Events.{TICKETS};
ghost use Rattle.rtrb.specs.Ring.{consumer_capacity};

use crate::signal::Signal;
use peer_source::Source;
use peer_wish::Ticket;
use rtrb::Consumer;
use std::sync::Wait;

/// Where tickets are taken.
#[derive(Drop)]
pub struct LaneOut<S: Source> {
    pub(crate) consumer: Consumer<Ticket<S>>,
    ghost places: { consumer_capacity consumer ≡ TICKETS },
}

impl<S: Source> LaneOut<S> {
    ghost use mathlib.Core.List.{IsPrefix};
    ghost use Rattle.std.specs.Prelude.{◌≡◌, ◌<◌, [], ◌∷◌, ◌++◌, length, IsSome, IfSome, IfNone};
    ghost use Rattle.peer_lane.specs.Lanes.{tickets_taken, tickets_known, IsSameOut};

    /// Takes the oldest ticket, where there is one.
    pub fn take(&mut self) -> Option<Ticket<S>>
        ensures lane { IsSameOut self.old self.new }
        ensures taken { IfSome result (λ t. tickets_taken self.new ≡ tickets_taken self.old ++ t ∷ []) }
        ensures oldest { IfSome result (λ t. IsPrefix (tickets_known self.old) (t ∷ tickets_known self.new)) }

        ensures kept { IfNone result (tickets_taken self.new ≡ tickets_taken self.old) }
        ensures none { IfNone result (tickets_known self.new ≡ []) }
        ensures succeeds { 0 < length (tickets_known self.old) → IsSome result }
    {
        self.consumer.pop().ok()
    }

    /// Takes a ticket that is known to be there.
    pub fn take_known(&mut self) -> Ticket<S>
        requires { 0 < length (tickets_known self.old) }
        ensures lane { IsSameOut self.old self.new }
        ensures taken { tickets_taken self.new ≡ tickets_taken self.old ++ result ∷ [] }
        ensures known { tickets_known self.old ≡ result ∷ tickets_known self.new }
    {
        self.consumer.pop_known()
    }

    /// Takes the oldest ticket. Where there is none it waits for one, until the signal says that nothing more is put.
    pub fn take_waiting<R: Wait>(&mut self, rt: &R, signal: &Signal) -> Option<Ticket<S>>
        ensures lane { IsSameOut self.old self.new }
        ensures taken { IfSome result (λ t. tickets_taken self.new ≡ tickets_taken self.old ++ t ∷ []) }
        ensures oldest { IfSome result (λ t. IsPrefix (tickets_known self.old) (t ∷ tickets_known self.new)) }

        ensures kept { IfNone result (tickets_taken self.new ≡ tickets_taken self.old) }
        ensures none { IfNone result (tickets_known self.new ≡ []) }
        ensures succeeds { 0 < length (tickets_known self.old) → IsSome result }
    {
        let mut waiter = signal.waiter();
        for _ in rt.forever() {
            let finished = signal.is_finished();
            if let Some(ticket) = self.take() {
                // An announcement that still stood would be notified.
                drop(waiter);
                signal.notify();
                return Some(ticket);
            }
            if finished {
                return None;
            }
            waiter.pause(rt);
        }
        unreachable!()
    }
}
