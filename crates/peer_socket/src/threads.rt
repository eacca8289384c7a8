//! The threads of a server, one for each worker and each connection seat: how they are started, and how the seats that they
//! are handed are taken back.
ghost use Rattle.std.specs.Prelude.{◌≡◌, IfSome};
ghost use Rattle.peer_fill.specs.Lists.{AreSeatsOf, ComeBack, HaveParts};
ghost use Rattle.peer_fill.specs.Pools.{IsConnSeatOf, IsFillSeatOf};
ghost use Rattle.peer_fill.specs.Seats.{conn_parts, fill_parts};
ghost use Rattle.peer_socket.specs.Threads.{all_conns, all_fills, AreNew, AreStarted, KeepAll};

use crate::acceptor::Acceptor;
use crate::seat_threads::{SeatHandle, start_seats};
use peer_fill::{ConnSeat, FillSeat, NoGate, Pool, Seats, join_seats};
use peer_runtime::Host;
use peer_source::Source;
use std::alloc::Global;
use std::sync::Wait;
use std::sync::ledger::Ledger;
use std::thread;
use std::thread::{Scope, Threads};

// The threads of a server that were started, and the seats that no thread has.
#[derive(Drop)]
struct ServerThreads<'a, S: Source, L: Ledger> {
    pool: &'a Pool<S, L>,
    acceptor: &'a Acceptor<'a>,
    alloc: Global,
    seats: Seats<S, L>,
    working: Vec<SeatHandle<'a, S, L, FillSeat<S, L>>>,
    serving: Vec<SeatHandle<'a, S, L, ConnSeat<S, L>>>,
}

impl<'a, S: Source + Send + Sync, L: Ledger + Send + Sync> ServerThreads<'a, S, L> {
    // No thread was started.
    fn new(
        alloc: Global,
        pool: &'a Pool<S, L>,
        seats: Seats<S, L>,
        acceptor: &'a Acceptor<'a>,
    ) -> ServerThreads<'a, S, L>
        requires { AreSeatsOf pool.now seats }
        ensures new { AreNew result }
        ensures pool { result.pool.now ≡ pool.now }
        ensures seats { result.seats ≡ seats }
    {
        ServerThreads {
            pool,
            acceptor,
            alloc,
            seats,
            working: Vec::new(alloc),
            serving: Vec::new(alloc),
        }
    }

    // Starts a thread for each worker and each connection seat. None where memory or a thread was refused.
    fn start<E, H: Host>(&mut self, scope: &Scope<'a, E>, rt: &'a H) -> Option<()>
        requires { AreNew self.old }
        ensures { IfSome result (λ _. KeepAll self.old self.new) }
    {
        let (pool, acceptor, alloc) = (self.pool, self.acceptor, self.alloc);
        let work = move |seat: FillSeat<S, L>| -> FillSeat<S, L>
            requires { IsFillSeatOf pool.now seat }
            ensures own { IsFillSeatOf pool.entry.now result }
            ensures parts { fill_parts result ≡ fill_parts seat }
        { pool.run_worker(rt, alloc, seat, &NoGate) };
        start_seats(scope, pool, &mut self.seats.fills, &mut self.working, work)?;
        let serve = move |seat: ConnSeat<S, L>| -> ConnSeat<S, L>
            requires { IsConnSeatOf pool.now seat }
            ensures own { IsConnSeatOf pool.entry.now result }
            ensures parts { conn_parts result ≡ conn_parts seat }
        { acceptor.serve(rt, alloc, pool, seat) };
        start_seats(scope, pool, &mut self.seats.conns, &mut self.serving, serve)
    }

    // Ends those that were started, of which none serves.
    fn cancel<H: Wait>(&self, rt: &H) {
        self.acceptor.start.cancel(rt);
        self.pool.stop();
    }

    // Waits for all threads, and gives all seats back. Those of connections end by themselves, and the workers are told to.
    fn join<H: Threads>(self, rt: &H) -> Seats<S, L>
        requires { AreStarted self }
        ensures { HaveParts self.entry.pool.now (all_conns self.entry) (all_fills self.entry) result }
    {
        let ServerThreads {
            pool,
            mut seats,
            working,
            serving,
            ..
        } = self;
        join_seats(rt, pool, serving, &mut seats.conns);
        pool.stop();
        join_seats(rt, pool, working, &mut seats.fills);
        seats
    }
}

// Starts all threads, lets them serve, and joins them. None where a thread or memory was refused: then no connection was
// accepted, and the threads that were started end.
fn run_threads<'s, E, S: Source + Send + Sync, L: Ledger + Send + Sync, H: Host>(
    scope: &Scope<'s, E>,
    rt: &'s H,
    alloc: Global,
    pool: &'s Pool<S, L>,
    seats: Seats<S, L>,
    acceptor: &'s Acceptor<'s>,
) -> Option<Seats<S, L>>
    requires { AreSeatsOf pool.now seats }
    ensures { IfSome result (ComeBack pool.now seats) }
{
    let mut threads = ServerThreads::new(alloc, pool, seats, acceptor);
    if threads.start(scope, rt).is_none() {
        threads.cancel(rt);
        return None;
    }
    acceptor.start.begin(rt);
    Some(threads.join(rt))
}

/// Each worker works, and each connection seat serves, in a thread of its own. No connection is accepted before all threads
/// have been started. None where a thread or memory was refused: then none was accepted.
pub fn use_seats<S: Source + Send + Sync, L: Ledger + Send + Sync, H: Host>(
    rt: &H,
    alloc: Global,
    pool: &Pool<S, L>,
    seats: Seats<S, L>,
    acceptor: &Acceptor<'_>,
) -> Option<Seats<S, L>>
    requires { AreSeatsOf pool.now seats }
    ensures { IfSome result (ComeBack pool.now seats) }
{
    thread::scope(
        thread::scope_env(),
        rt,
        move |scope| -> Option<Seats<S, L>>
            requires { AreSeatsOf pool.now seats }
            ensures { IfSome result (ComeBack pool.entry.now seats) }
        { run_threads(scope, rt, alloc, pool, seats, acceptor) },
    )
}
