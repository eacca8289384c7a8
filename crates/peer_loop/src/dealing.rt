//! How the seats of loops are handed to threads, and taken back.
//!
//! A loop is handed a connection's seat, and one that fills where the loops fill. It gives back both with their parts, so the
//! lists have all parts again once all loops are joined.
ghost use Rattle.std.specs.Prelude.{◌≡◌, ◌+◌, ◌≤◌, All, IfSome, sum_by, vec_len, vec_capacity};
ghost use Rattle.peer_fill.specs.Pools.{IsConnSeatOf, IsFillSeatOf};
ghost use Rattle.peer_fill.specs.Seats.{conn_parts, fill_parts};
ghost use Rattle.peer_fill.specs.Lists.{AreSeatsOf};
ghost use Rattle.peer_clients.specs.Parts.{AreOf, KeepsParts, filling_parts};
ghost use Rattle.peer_loop.specs.Parts.{Takes, TakesBack};

use peer_clients::LoopSeats;
use peer_fill::{ConnSeat, FillSeat, Pool, Seats, pop_seat};
use peer_source::Source;
use std::snapshot::Snapshot;
use std::sync::ledger::Ledger;
use std::thread::{Promise, PromisedHandle, Threads};

/// That the seats of a loop come back with their parts.
#[derive(Drop)]
pub struct KeepsLoop<'a, S: Source, L: Ledger> {
    pub pool: &'a Pool<S, L>,
    pub seats: Snapshot<LoopSeats<S, L>>,
}

impl<'a, S: Source, L: Ledger> KeepsLoop<'a, S, L> {
    /// The promise of a thread that is handed these seats of the pool.
    pub fn new(pool: &'a Pool<S, L>, seats: &LoopSeats<S, L>) -> KeepsLoop<'a, S, L>
        ensures pool { result.pool.now ≡ pool.now }
        ensures seats { result.seats.value ≡ seats.now }
    {
        KeepsLoop {
            pool,
            seats: Snapshot::of(seats),
        }
    }
}

impl<'a, S: Source, L: Ledger> Promise<LoopSeats<S, L>> for KeepsLoop<'a, S, L> {
    ghost kept_by = { λ p r. AreOf p.pool.now r × KeepsParts p.seats.value r };
}

/// Takes the seats of a loop off the lists.
pub fn pop_loop<S: Source, L: Ledger>(
    pool: &Pool<S, L>,
    seats: &mut Seats<S, L>,
) -> Option<LoopSeats<S, L>>
    requires { AreSeatsOf pool.now seats.old }
    ensures of { IfSome result (AreOf pool.now) }
    ensures left { AreSeatsOf pool.now seats.new }
    ensures takes { Takes seats.old seats.new result }
{
    let conn = pop_seat(pool, &mut seats.conns)?;
    let fill = pop_seat(pool, &mut seats.fills);
    Some(LoopSeats { conn, fill })
}

// Puts a seat that fills back on the list, which has room for it.
fn put_fill<S: Source, L: Ledger>(
    pool: &Pool<S, L>,
    fills: &mut Vec<FillSeat<S, L>>,
    fill: Option<FillSeat<S, L>>,
)
    requires fills { All (IsFillSeatOf pool.now) fills.old.items }
    requires of { IfSome fill (IsFillSeatOf pool.now) }
    requires room { vec_len fills.old + 1 ≤ vec_capacity fills.old }
    ensures fills { All (IsFillSeatOf pool.now) fills.new.items }
    ensures parts { sum_by fill_parts fills.new.items ≡ sum_by fill_parts fills.old.items + filling_parts fill }
    ensures len { vec_len fills.new ≤ vec_len fills.old + 1 }
    ensures room { vec_capacity fills.old ≤ vec_capacity fills.new }
{
    let Some(seat) = fill else {
        return;
    };
    let Ok(()) = fills.push(seat) else {
        unreachable!()
    };
}

// Puts a seat of connections back on the list, which has room for it.
fn put_conn<S: Source, L: Ledger>(
    pool: &Pool<S, L>,
    conns: &mut Vec<ConnSeat<S, L>>,
    conn: ConnSeat<S, L>,
)
    requires conns { All (IsConnSeatOf pool.now) conns.old.items }
    requires of { IsConnSeatOf pool.now conn }
    requires room { vec_len conns.old + 1 ≤ vec_capacity conns.old }
    ensures conns { All (IsConnSeatOf pool.now) conns.new.items }
    ensures parts { sum_by conn_parts conns.new.items ≡ sum_by conn_parts conns.old.items + conn_parts conn }
    ensures len { vec_len conns.new ≡ vec_len conns.old + 1 }
    ensures room { vec_capacity conns.old ≤ vec_capacity conns.new }
{
    let Ok(()) = conns.push(conn) else {
        unreachable!()
    };
}

/// Waits for all these loops, and puts their seats back on the lists, which have room for them.
pub fn join_loops<'a, S: Source, L: Ledger, H: Threads>(
    rt: &H,
    pool: &Pool<S, L>,
    mut serving: Vec<PromisedHandle<LoopSeats<S, L>, KeepsLoop<'a, S, L>>>,
    seats: &mut Seats<S, L>,
)
    requires serving { All (λ h. h.promise.pool.now ≡ pool.now) serving.items }
    requires of { AreSeatsOf pool.now seats.old }
    requires conn_room { vec_len seats.old.conns + vec_len serving ≤ vec_capacity seats.old.conns }
    requires fill_room { vec_len seats.old.fills + vec_len serving ≤ vec_capacity seats.old.fills }
    ensures { TakesBack pool.now seats.old seats.new serving.entry }
{
    while let Some(handle) = serving.pop() {
        let LoopSeats { conn, fill } = handle.join(rt);
        put_conn(pool, &mut seats.conns, conn);
        put_fill(pool, &mut seats.fills, fill);
    }
}
