//! A pool that one thread uses by turns: as two connections, and as the worker.
ghost use Rattle.std.specs.Prelude.{◌≡◌, ◌<◌, All, IfSome};
ghost use Rattle.peer_fill.specs.Pools.{source_of, IsConnSeatOf, IsFillSeatOf};

use peer_fill::{
    CacheCounts, CachePlan, Caching, CloseFault, ConnSeat, FillSeat, Gate, NoGate, Pool, Report,
    Seats, TakenJob, pop_seat,
};
use peer_flight::Claim;
use peer_source::{GroupId, Source};
use std::alloc::Global;
use std::marker::Brand;
use std::mem;
use std::sync::Wait;
use std::sync::ledger::{Blank, Ledger};
use test_support::{ask_in, close_pool, open_pool_with, seed};

/// A pool and its seats.
#[derive(Drop)]
pub struct Desk<S: Source, L: Ledger> {
    pub(super) alloc: Global,
    pub(super) pool: Pool<S, L>,
    pub(super) seats: DeskSeats<S, L>,
    ghost conn: { IsConnSeatOf pool seats.conn },
    ghost other: { IsConnSeatOf pool seats.other },
    ghost fill: { IsFillSeatOf pool seats.fill },
    ghost groups: { 1 < S.count (source_of pool) },
}

/// The seats of two connections and of a worker.
#[derive(Drop)]
pub struct DeskSeats<S: Source, L: Ledger> {
    pub(super) conn: ConnSeat<S, L>,
    pub(super) other: ConnSeat<S, L>,
    pub(super) fill: FillSeat<S, L>,
}

// Seats of these lists. None where one is missing.
fn take_seats<S: Source, L: Ledger>(
    pool: &Pool<S, L>,
    lists: &mut Seats<S, L>,
) -> Option<DeskSeats<S, L>>
    requires fills { All (IsFillSeatOf pool.now) lists.old.fills.items }
    requires conns { All (IsConnSeatOf pool.now) lists.old.conns.items }
    ensures conn { IfSome result (λ seats. IsConnSeatOf pool.now seats.conn) }
    ensures other { IfSome result (λ seats. IsConnSeatOf pool.now seats.other) }
    ensures fill { IfSome result (λ seats. IsFillSeatOf pool.now seats.fill) }
{
    let conn = pop_seat(pool, &mut lists.conns)?;
    let other = pop_seat(pool, &mut lists.conns)?;
    let fill = pop_seat(pool, &mut lists.fills)?;
    Some(DeskSeats { conn, other, fill })
}

// The lists of these seats. None where memory was refused.
fn lists_of<S: Source, L: Ledger>(
    alloc: Global,
    pool: &Pool<S, L>,
    seats: DeskSeats<S, L>,
) -> Option<Seats<S, L>>
    requires conn { IsConnSeatOf pool.now seats.conn }
    requires other { IsConnSeatOf pool.now seats.other }
    requires fill { IsFillSeatOf pool.now seats.fill }
    ensures fills { IfSome result (λ lists. All (IsFillSeatOf pool.now) lists.fills.items) }
    ensures conns { IfSome result (λ lists. All (IsConnSeatOf pool.now) lists.conns.items) }
{
    let DeskSeats { conn, other, fill } = seats;
    let fills = Vec::from_array(alloc, [fill]).ok()?;
    let conns = Vec::from_array(alloc, [conn, other]).ok()?;
    Some(Seats { fills, conns })
}

// The pool and all its seats, where a close without the worker's seat is refused.
fn close_early<S: Source, L: Ledger, R: Wait>(
    rt: &R,
    alloc: Global,
    pool: Pool<S, L>,
    lists: Seats<S, L>,
) -> Option<(Pool<S, L>, Seats<S, L>)>
    requires fills { All (IsFillSeatOf pool) lists.fills.items }
    requires conns { All (IsConnSeatOf pool) lists.conns.items }
    ensures fills { IfSome result (λ back. All (IsFillSeatOf back.0) back.1.fills.items) }
    ensures conns { IfSome result (λ back. All (IsConnSeatOf back.0) back.1.conns.items) }
{
    let Seats { fills, conns } = lists;
    match pool.close(rt, Vec::new(alloc), conns) {
        Ok(_) => None,
        Err(
            CloseFault::SeatsMissing {
                pool,
                fills: _none,
                conns,
            },
        ) => Some((pool, Seats { fills, conns })),
    }
}

impl<S: Source, L: Ledger> Desk<S, L> {
    /// A pool whose caches keep so many bytes of each group. None where memory was refused.
    pub fn open(alloc: Global, source: S, cache_bytes: u64, blank: Blank) -> Option<Desk<S, L>>
        requires groups { 1 < S.count source }
        requires name { blank.name ≡ L.name }
        requires parts { (blank.parts ≡ L.parts) × (blank.parts ≡ 16) }
    {
        let caching = Caching {
            plan: CachePlan::Single(cache_bytes),
            own: &[],
            seed: seed()?,
        };
        Desk::open_with(alloc, source, caching, blank)
    }

    /// The same with these caches.
    pub fn open_with(
        alloc: Global,
        source: S,
        caching: Caching<'_>,
        blank: Blank,
    ) -> Option<Desk<S, L>>
        requires groups { 1 < S.count source }
        requires name { blank.name ≡ L.name }
        requires parts { (blank.parts ≡ L.parts) × (blank.parts ≡ 16) }
    {
        let opened = open_pool_with::<S, L>(alloc, source, caching, 1, 2, blank);
        let Some((pool, mut lists)) = opened else {
            return None;
        };
        let Some(seats) = take_seats(&pool, &mut lists) else {
            return None;
        };
        Some(Desk { alloc, pool, seats })
    }

    /// The report of the pool. A close without the worker's seat is refused first, and all comes back.
    pub fn close<R: Wait>(self, rt: &R) -> Option<Report> {
        let Desk { alloc, pool, seats } = self;
        let Some(lists) = lists_of(alloc, &pool, seats) else {
            return None;
        };
        let Some((pool, lists)) = close_early(rt, alloc, pool, lists) else {
            return None;
        };
        close_pool(rt, pool, lists)
    }

    /// The other connection is the one that asks.
    pub fn change_seats(&mut self) {
        mem::swap(&mut self.seats.conn, &mut self.seats.other);
    }

    /// A claim on a key of one of the first two groups. None where memory was refused.
    pub fn ask<R: Wait>(&mut self, rt: &R, group: GroupId, key: &[u8]) -> Option<Claim<S>>
        requires { group.number < 2 }
    {
        ask_in(rt, self.alloc, &self.pool, &mut self.seats.conn, group, key)
    }

    /// What the caches of a group keep and have lost.
    pub fn cache_counts<R: Wait>(&self, rt: &R, group: GroupId) -> CacheCounts {
        self.pool.cache_counts(rt, group)
    }

    /// The worker waits for no job from now on.
    pub fn stop(&self) {
        self.pool.stop();
    }

    /// The same once the worker of a pool that was stopped ran until no job was left.
    pub fn run_worker<R: Wait>(self, rt: &R) -> Desk<S, L> {
        let Desk { alloc, pool, seats } = self;
        let DeskSeats { conn, other, fill } = seats;
        let fill = pool.run_worker(rt, alloc, fill, &NoGate);
        let seats = DeskSeats { conn, other, fill };
        Desk { alloc, pool, seats }
    }

    /// How many jobs the worker filled, of so many at most.
    pub fn work<R: Wait, G: Gate>(&mut self, rt: &R, most: usize, gate: &G) -> usize {
        let fill = &mut self.seats.fill;
        self.pool.work_some(rt, self.alloc, fill, most, gate)
    }

    /// The job that the worker takes.
    pub fn take_job<R: Wait, G: Gate>(&mut self, rt: &R, gate: &G) -> Option<TakenJob<S>> {
        self.pool.take_job(rt, &mut self.seats.fill, gate)
    }
}

/// What one thread does with a pool by turns.
pub trait Steps {
    type Source: Source;

    type Seen: Drop;

    /// What was seen. None where memory was refused.
    fn take<L: Ledger, R: Wait>(
        &self,
        rt: &R,
        desk: &mut Desk<Self::Source, L>,
    ) -> Option<Self::Seen>;
}

// What was seen, and the report of the pool.
fn run_over<P: Steps, L: Ledger, R: Wait>(
    rt: &R,
    alloc: Global,
    source: P::Source,
    cache_bytes: u64,
    steps: &P,
    blank: Blank,
) -> Option<(P::Seen, Report)>
    requires groups { 1 < P.Source.count source }
    requires name { blank.name ≡ L.name }
    requires parts { (blank.parts ≡ L.parts) × (blank.parts ≡ 16) }
{
    let mut desk = Desk::<P::Source, L>::open(alloc, source, cache_bytes, blank)?;
    let seen = steps.take(rt, &mut desk);
    seen.zip(desk.close(rt))
}

/// What was seen, and the report of a pool over this source, whose caches keep so many bytes of each group.
pub fn run<P: Steps, R: Wait>(
    rt: &R,
    alloc: Global,
    source: P::Source,
    cache_bytes: u64,
    steps: &P,
) -> Option<(P::Seen, Report)>
    requires { 1 < P.Source.count source }
{
    run_over::<P, Brand, R>(rt, alloc, source, cache_bytes, steps, Blank::new(16))
}
