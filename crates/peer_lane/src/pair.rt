//! The two ends of a lane in one hand.
ghost use Rattle.std.specs.Prelude.{◌≡◌, ◌+◌, ◌≤◌, [], ◌++◌, length, IfOk};
ghost use Rattle.peer_flight.specs.Events.{TICKETS};
ghost use Rattle.peer_lane.specs.Lanes.{tickets_put, tickets_taken, tickets_known, free_places, IsLane, PutsNone, TakesNone};

use crate::lane_in::LaneIn;
use crate::lane_out::LaneOut;
use peer_source::Source;
use peer_wish::MAX_TICKETS;
use rtrb::RingBuffer;
use std::alloc::{AllocError, Global};

/// A lane of 64 tickets, which has none yet.
pub fn lane<S: Source>(alloc: Global) -> Result<(LaneIn<S>, LaneOut<S>), AllocError>
    ensures lane { IfOk result (λ ends. IsLane ends.0 ends.1) }
    ensures places { IfOk result (λ ends. free_places ends.0 ≡ TICKETS) }
    ensures put { IfOk result (λ ends. tickets_put ends.0 ≡ []) }
    ensures taken { IfOk result (λ ends. tickets_taken ends.1 ≡ []) }
    ensures known { IfOk result (λ ends. tickets_known ends.1 ≡ []) }
{
    let (producer, consumer) = RingBuffer::new(alloc, MAX_TICKETS)?;
    Ok((LaneIn { producer }, LaneOut { consumer }))
}

/// How many tickets are in the lane, for a thread that has both ends. What is in it is then known, and each other
/// place is free.
pub fn beside<S: Source>(put: &mut LaneIn<S>, taken: &mut LaneOut<S>) -> usize
    requires { IsLane put.old taken.old }
    ensures put { PutsNone put.old put.new }
    ensures taken { TakesNone taken.old taken.new }
    ensures left { tickets_taken taken.new ++ tickets_known taken.new ≡ tickets_put put.new }
    ensures count { result ≡ length (tickets_known taken.new) }
    ensures most { result ≤ TICKETS }
    ensures places { TICKETS ≤ free_places put.new + result }
{
    put.producer.slots_beside(&mut taken.consumer);
    taken.consumer.slots_beside(&mut put.producer)
}
