//! What both kinds of seats have: a pass of the queue of jobs, which is the right to push and to pop, and parts of the pool.
//!
//! It stands on the seats of connections and of workers. Handing seats out and taking them back is written once over it.
ghost use Rattle.std.specs.Prelude.{◌≡◌, ◌≤◌, ℕ};
ghost use Rattle.crossbeam_queue.specs.Passes.{Pass};
ghost use Rattle.peer_fill.specs.Seats.{conn_parts, fill_parts};
ghost use Rattle.peer_fill.specs.declared.jobs.PassLog.{PassLog};

use crate::seats::{ConnSeat, FillSeat};
use peer_source::Source;
use std::sync::ledger::Ledger;

/// The most seats of a kind: the queue of jobs and the ledger have so many parts, and a seat has one at least.
pub const MAX_SEATS: u64 = 16;

/// A seat of a pool.
pub trait Seat {
    // Its pass of the queue of jobs.
    ghost pass_of: { Self → Pass ℕ PassLog };

    // Its parts of the pool.
    ghost parts_of: { Self → ℕ };

    fn parts(&self) -> u64
        ensures parts { result ≡ parts_of self.now }
        ensures within { result ≤ 16 };
}

impl<S: Source, L: Ledger> Seat for ConnSeat<S, L> {
    ghost pass_of = { λ seat. seat.pass };

    ghost parts_of = { λ seat. conn_parts seat };

    fn parts(&self) -> u64 {
        self.parts
    }
}

impl<S: Source, L: Ledger> Seat for FillSeat<S, L> {
    ghost pass_of = { λ seat. seat.pass };

    ghost parts_of = { λ seat. fill_parts seat };

    fn parts(&self) -> u64 {
        self.parts
    }
}
