//! What threads promise of the seats that they are handed, and how the seats are taken back.
//!
//! A thread that is handed a seat gives one back that has its parts. So the seats of all threads that are joined have
//! the parts of those that were handed out, and a pool that gets them all can be closed.
ghost use Rattle.std.specs.Prelude.{◌≡◌, ◌+◌, ◌≤◌, All, sum_by, vec_len, vec_capacity};
ghost use Rattle.peer_fill.specs.Keeping.{handed};
ghost use Rattle.peer_fill.specs.Pools.{IsSeatOf};

use crate::pool::Pool;
use crate::seat::Seat;
use peer_source::Source;
use std::snapshot::Snapshot;
use std::sync::ledger::Ledger;
use std::thread::{Promise, PromisedHandle, Threads};

/// That a seat comes back with its parts.
#[derive(Drop)]
pub struct Keeps<'a, S: Source, L: Ledger, T> {
    pub pool: &'a Pool<S, L>,
    pub seat: Snapshot<T>,
}

impl<'a, S: Source, L: Ledger, T> Keeps<'a, S, L, T> {
    /// The promise of a thread that is handed this seat of the pool.
    pub fn new(pool: &'a Pool<S, L>, seat: &T) -> Keeps<'a, S, L, T>
        ensures pool { result.pool.now ≡ pool.now }
        ensures seat { result.seat.value ≡ seat.now }
    {
        Keeps {
            pool,
            seat: Snapshot::of(seat),
        }
    }
}

impl<'a, S: Source, L: Ledger, T: Seat> Promise<T> for Keeps<'a, S, L, T> {
    ghost kept_by = { λ p r. IsSeatOf T.pass_of p.pool.now r × (T.parts_of r ≡ T.parts_of p.seat.value) };
}

/// Waits for all these threads, and puts their seats on the list, which has room for them.
pub fn join_seats<'a, S: Source, L: Ledger, T: Seat + Drop, H: Threads>(
    rt: &H,
    pool: &Pool<S, L>,
    mut threads: Vec<PromisedHandle<T, Keeps<'a, S, L, T>>>,
    seats: &mut Vec<T>,
)
    requires threads { All (λ h. h.promise.pool.now ≡ pool.now) threads.items }
    requires seats { All (IsSeatOf T.pass_of pool.now) seats.old.items }
    requires room { vec_len seats.old + vec_len threads ≤ vec_capacity seats.old }
    ensures seats { All (IsSeatOf T.pass_of pool.now) seats.new.items }
    ensures parts { sum_by T.parts_of seats.new.items ≡ sum_by T.parts_of seats.old.items + handed T.parts_of threads.entry.items }
{
    while let Some(handle) = threads.pop() {
        let Ok(()) = seats.push(handle.join(rt)) else {
            unreachable!()
        };
    }
}
