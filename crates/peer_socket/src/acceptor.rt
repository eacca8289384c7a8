//! The connections that one thread serves, one after the other.
ghost use Rattle.std.specs.Prelude.{◌≡◌};
ghost use Rattle.peer_fill.specs.Claiming.{KeepsSeat};
ghost use Rattle.peer_fill.specs.Pools.{IsConnSeatOf};

use crate::client::Client;
use crate::occupancy::Occupancy;
use crate::rounds::Rounds;
use crate::start::Start;
use crate::stream::serve_client;
use peer_fill::{ConnSeat, Pool};
use peer_runtime::{Host, Limits};
use peer_source::Source;
use std::alloc::Global;
use std::net::{TcpListener, TcpStream};
use std::sync::ledger::Ledger;

/// Where the threads of a server find their clients.
#[derive(Drop)]
pub struct Acceptor<'a> {
    pub listener: &'a TcpListener,
    pub limits: &'a Limits,
    pub start: Start,
    pub occupancy: Occupancy,
    /// How many connections each thread accepts.
    pub rounds: u64,
}

impl<'a> Acceptor<'a> {
    /// An acceptor for so many seats, whose threads wait for their start.
    pub fn new(
        listener: &'a TcpListener,
        limits: &'a Limits,
        seats: u64,
        rounds: u64,
    ) -> Acceptor<'a> {
        Acceptor {
            listener,
            limits,
            start: Start::new(),
            occupancy: Occupancy::new(seats),
            rounds,
        }
    }

    // Serves one stream. One that refuses its options is let go.
    fn serve_stream<S: Source + Send + Sync, L: Ledger + Send + Sync, H: Host>(
        &self,
        rt: &H,
        alloc: Global,
        pool: &Pool<S, L>,
        seat: ConnSeat<S, L>,
        stream: &TcpStream,
    ) -> ConnSeat<S, L>
        requires { IsConnSeatOf pool.now seat }
        ensures { KeepsSeat pool.now seat result }
    {
        match Client::new(rt, stream, self.limits, &self.occupancy) {
            Some(client) => serve_client(rt, alloc, pool, seat, &client),
            None => seat,
        }
    }

    // Accepts and serves, until no round is left.
    fn serve_rounds<S: Source + Send + Sync, L: Ledger + Send + Sync, H: Host>(
        &self,
        rt: &H,
        alloc: Global,
        pool: &Pool<S, L>,
        seat: ConnSeat<S, L>,
        rounds: &mut Rounds<'_>,
    ) -> ConnSeat<S, L>
        requires { IsConnSeatOf pool.now seat }
        ensures seat { KeepsSeat pool.now seat result }
        ensures all { rounds.new.left ≡ 0 }
    {
        let mut seat = seat;
        while rounds.left() > 0 {
            if let Some(stream) = rounds.accept(rt) {
                self.occupancy.enter();
                seat = self.serve_stream(rt, alloc, pool, seat, &stream);
                self.occupancy.leave();
            }
        }
        seat
    }

    /// Accepts and serves all rounds, once all threads have been started. After them the seat counts as taken.
    pub fn serve<S: Source + Send + Sync, L: Ledger + Send + Sync, H: Host>(
        &self,
        rt: &H,
        alloc: Global,
        pool: &Pool<S, L>,
        seat: ConnSeat<S, L>,
    ) -> ConnSeat<S, L>
        requires { IsConnSeatOf pool.now seat }
        ensures { KeepsSeat pool.now seat result }
    {
        let mut seat = seat;
        if self.start.wait(rt) {
            let mut rounds = Rounds::new(&*self);
            seat = self.serve_rounds(rt, alloc, pool, seat, &mut rounds);
        }
        self.occupancy.enter();
        seat
    }
}
