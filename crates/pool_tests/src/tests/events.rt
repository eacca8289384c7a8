//! A worked schedule of a world: two connections share a flight.

use crate::tests::values::ECHO;
use flight_world::{Wish, World};
use peer_source::{DemoSource, Fill};
use peer_view::ByteView;
use std::alloc::{AllocError, Global};

/// An event, at a connection or at a worker.
#[derive(Clone, Copy)]
enum Event {
    Want(usize),
    PutTicket(usize),
    PutJob(usize),
    TakeTicket(usize),
    SeeOutcome(usize),
    TakeJob(usize),
    SetOutcome(usize),
    Land(usize),
    // A wish that closes its connection.
    Close(usize),
}

// Whether the event happened.
fn happened(answer: Result<bool, AllocError>) -> bool {
    matches!(answer, Ok(true))
}

// Whether a wish for the place arrived.
fn wants(world: &mut World<DemoSource>, alloc: Global, connection: usize, key: &ByteView) -> bool {
    match Wish::of(ECHO, key, false) {
        Ok(wish) => matches!(world.want(alloc, connection, wish), Ok(true)),
        Err(_) => false,
    }
}

// Whether an outcome was set.
fn sets(world: &mut World<DemoSource>, alloc: Global, worker: usize, key: &ByteView) -> bool {
    match key.share() {
        Ok(key) => world.set_outcome(worker, Fill::run(alloc, &DemoSource, ECHO, key)),
        Err(_) => false,
    }
}

// Whether this event happened.
fn happens(world: &mut World<DemoSource>, alloc: Global, key: &ByteView, event: Event) -> bool {
    match event {
        Event::Want(connection) => wants(world, alloc, connection, key),
        Event::PutTicket(connection) => happened(world.put_ticket(connection)),
        Event::PutJob(connection) => happened(world.put_job(connection)),
        Event::TakeTicket(connection) => happened(world.take_ticket(connection)),
        Event::SeeOutcome(connection) => happened(world.see_outcome(connection)),
        Event::TakeJob(worker) => world.take_job(worker),
        Event::SetOutcome(worker) => sets(world, alloc, worker, key),
        Event::Land(worker) => world.land(worker),
        Event::Close(connection) => happened(world.put_ready(connection, Wish::fault(true))),
    }
}

// Two wishes for one place, and a third at a full hand; the right is put before the tickets; the job is taken once, and lands what
// it has set, once; one outcome answers both; nothing arrives behind a wish that closes.
const SCHEDULE: [(Event, bool); 24] = [
    (Event::Want(0), true),
    (Event::Want(1), true),
    (Event::Want(0), false),
    (Event::PutTicket(0), false),
    (Event::PutJob(0), true),
    (Event::PutJob(1), false),
    (Event::PutTicket(0), true),
    (Event::PutTicket(1), true),
    (Event::TakeTicket(0), true),
    (Event::TakeTicket(1), true),
    (Event::SeeOutcome(0), false),
    (Event::SeeOutcome(1), false),
    (Event::TakeJob(0), true),
    (Event::TakeJob(0), false),
    (Event::Land(0), false),
    (Event::SetOutcome(0), true),
    (Event::Land(0), true),
    (Event::Land(0), false),
    (Event::TakeTicket(0), false),
    (Event::TakeTicket(1), false),
    (Event::SeeOutcome(0), true),
    (Event::SeeOutcome(1), true),
    (Event::Close(1), true),
    (Event::Close(1), false),
];

#[test]
fn two_connections_share_a_flight(rt: HostRuntime) {
    let alloc = rt.alloc();
    let key = ByteView::copy_of(alloc, b"k").expect(&rt, "memory");
    let mut world: World<DemoSource> = World::new(alloc, 1, 2).expect(&rt, "memory");
    let mut right = true;
    for (event, wanted) in SCHEDULE {
        right &= happens(&mut world, alloc, &key, event) == wanted;
    }
    world.law();
    assert!(rt; right);
}
