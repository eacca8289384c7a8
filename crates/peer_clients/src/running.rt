//! What the thread of a loop does.
ghost use Rattle.std.specs.Prelude.{◌≡◌, Some};
ghost use Rattle.peer_fill.specs.Pools.{source_of};
ghost use Rattle.peer_clients.specs.Parts.{AreOf, KeepsParts};

use crate::event_loop::EventLoop;
use crate::facts::Facts;
use crate::filling::Filling;
use crate::loop_seats::LoopSeats;
use crate::seat::LoopSeat;
use crate::work::{LoopParts, LoopWork};
use peer_exchange::ReplyNotes;
use peer_fill::Pool;
use peer_runtime::Network;
use peer_source::Source;
use peer_stats::TrafficCounts;
use std::alloc::Global;
use std::marker::{Brand, PhantomData};
use std::sync::ledger::Ledger;

// Runs a loop whose contracts know its source.
fn run_known<S: Source, L: Ledger, F: Facts<S>, H: Network>(
    rt: &H,
    alloc: Global,
    pool: &Pool<S, L>,
    work: LoopWork<'_, S, L>,
) -> LoopSeats<S, L>
    requires of { AreOf pool.now work.seats }
    requires source { F.source ≡ Some (source_of pool.now) }
    ensures of { AreOf pool.now result }
    ensures parts { KeepsParts work.entry.seats result }
{
    let LoopWork { seats, parts, site } = work;
    let LoopParts { mut waits, buffer } = parts;
    let ring = match site.shared.records {
        Some(rings) => rings.take(rt, site.number),
        None => None,
    };
    let mut seat = LoopSeat::<S, L, F> {
        pool,
        alloc,
        seats,
        buffer,
        filling: Filling::new(site.shared.wakers, site.shared.gate(site.number)),
        notes: ReplyNotes::new(ring),
        traffic: TrafficCounts::NONE,
        of: PhantomData,
    };
    let mut serving = EventLoop::new(alloc, site);
    serving.run(rt, &mut seat, &mut waits);
    seat.seats
}

/// Serves the streams that its mailbox is given, until no more are given and all clients are gone. Gives its seats back.
pub fn run_loop<S: Source, L: Ledger, H: Network>(
    rt: &H,
    alloc: Global,
    pool: &Pool<S, L>,
    work: LoopWork<'_, S, L>,
) -> LoopSeats<S, L>
    requires { AreOf pool.now work.seats }
    ensures of { AreOf pool.now result }
    ensures parts { KeepsParts work.entry.seats result }
{
    run_known::<S, L, Brand, H>(rt, alloc, pool, work)
}
