//! What a call over a pool is lent: the pool, and the seats of one worker and one connection.
ghost use Rattle.std.specs.Prelude.{◌≡◌, All, IfSome};
ghost use Rattle.peer_fill.specs.Pools.{IsConnSeatOf, IsFillSeatOf};
ghost use Rattle.refused.specs.Lent.{AreOf};

use peer_fill::{ConnSeat, FillSeat, NoGate, Pool, Seats, pop_seat};
use peer_flight::Claim;
use peer_source::{DemoSource, Source};
use std::alloc::Global;
use std::sync::Wait;
use std::sync::ledger::Ledger;
use test_support::{ask_for, push_seat};

// More jobs than any call here leads to.
const JOBS: usize = 256;

/// The seats of one worker and one connection.
#[derive(Drop)]
pub struct LentSeats<S: Source, L: Ledger> {
    pub fill: FillSeat<S, L>,
    pub conn: ConnSeat<S, L>,
}

impl<S: Source, L: Ledger> LentSeats<S, L> {
    /// What the connection asked, hit, led and joined.
    pub fn counts(&self) -> [u64; 4] {
        let conn = &self.conn;
        [conn.asked(), conn.hits(), conn.led(), conn.joined()]
    }
}

/// A pool that is lent.
#[derive(Drop)]
pub struct Lent<'p, S: Source, L: Ledger, R> {
    pub rt: &'p R,
    pub alloc: Global,
    pub pool: &'p Pool<S, L>,
}

/// One of the source for demonstrations, and seats of it.
pub type Demo<'p, L, R> = Lent<'p, DemoSource, L, R>;

pub type DemoSeats<L> = LentSeats<DemoSource, L>;

impl<'p, S: Source, L: Ledger, R: Wait> Lent<'p, S, L, R> {
    /// A pool that is lent to calls.
    pub fn new(rt: &'p R, alloc: Global, pool: &'p Pool<S, L>) -> Lent<'p, S, L, R>
        ensures { result.pool.now ≡ pool.now }
    {
        Lent { rt, alloc, pool }
    }

    /// LentSeats from these lists. None where one is missing.
    pub fn take_seats(&self, lists: &mut Seats<S, L>) -> Option<LentSeats<S, L>>
        requires fills { All (IsFillSeatOf self.now.pool.now) lists.old.fills.items }
        requires conns { All (IsConnSeatOf self.now.pool.now) lists.old.conns.items }
        ensures fills { All (IsFillSeatOf self.now.pool.now) lists.new.fills.items }
        ensures conns { All (IsConnSeatOf self.now.pool.now) lists.new.conns.items }
        ensures seats { IfSome result (AreOf self.now.pool.now) }
    {
        let fill = pop_seat(self.pool, &mut lists.fills)?;
        let conn = pop_seat(self.pool, &mut lists.conns)?;
        Some(LentSeats { fill, conn })
    }

    /// Puts seats back on these lists.
    pub fn put_seats(&self, lists: &mut Seats<S, L>, seats: LentSeats<S, L>)
        requires fills { All (IsFillSeatOf self.now.pool.now) lists.old.fills.items }
        requires conns { All (IsConnSeatOf self.now.pool.now) lists.old.conns.items }
        requires seats { AreOf self.now.pool.now seats }
        ensures fills { All (IsFillSeatOf self.now.pool.now) lists.new.fills.items }
        ensures conns { All (IsConnSeatOf self.now.pool.now) lists.new.conns.items }
    {
        let LentSeats { fill, conn } = seats;
        push_seat(self.pool, &mut lists.fills, fill);
        push_seat(self.pool, &mut lists.conns, conn);
    }

    /// A claim on this key of `echo`. None where memory was refused.
    pub fn ask_for(&self, seats: &mut LentSeats<S, L>, key: &[u8]) -> Option<Claim<S>>
        requires { AreOf self.now.pool.now seats.old }
        ensures { AreOf self.now.pool.now seats.new }
    {
        ask_for(self.rt, self.alloc, self.pool, &mut seats.conn, key)
    }

    /// Fills the jobs that are there.
    pub fn fill_jobs(&self, seats: &mut LentSeats<S, L>)
        requires { AreOf self.now.pool.now seats.old }
        ensures { AreOf self.now.pool.now seats.new }
    {
        let _filled = self
            .pool
            .work_some(self.rt, self.alloc, &mut seats.fill, JOBS, &NoGate);
    }

    /// The worker does the jobs of the pool, which was stopped.
    pub fn run_worker(&self, seats: LentSeats<S, L>) -> LentSeats<S, L>
        requires { AreOf self.now.pool.now seats }
        ensures { AreOf self.now.pool.now result }
    {
        let LentSeats { fill, conn } = seats;
        let fill = self.pool.run_worker(self.rt, self.alloc, fill, &NoGate);
        LentSeats { fill, conn }
    }
}
