//! All seats of a pool, in a list of each kind: what a server hands to its threads, and closes its pool with.
use crate::close::Report;
use crate::pool::Pool;
use crate::seats::{ConnSeat, FillSeat};
use peer_source::Source;
use std::sync::Wait;
use std::sync::ledger::Ledger;

/// Seats of a pool.
#[derive(Drop)]
pub struct Seats<S: Source, L: Ledger> {
    pub fills: Vec<FillSeat<S, L>>,
    pub conns: Vec<ConnSeat<S, L>>,
}

impl<S: Source, L: Ledger> Pool<S, L> {
    ghost use Rattle.std.specs.Prelude.{◌≡◌};
    ghost use Rattle.peer_fill.specs.Lists.{all_conn_parts, all_fill_parts, AreSeatsOf, Balances};
    ghost use Rattle.peer_fill.specs.Totals.{AddsUp};

    /// `close` with all seats of the pool.
    pub fn close_all<R: Wait>(self, rt: &R, seats: Seats<S, L>) -> Report
        requires of { AreSeatsOf self seats }
        requires all_fills { all_fill_parts seats ≡ 16 }
        requires all_conns { all_conn_parts seats ≡ 16 }
        ensures balances { Balances result }
        ensures sums { AddsUp seats.fills.items seats.conns.items result }
    {
        match self.close(rt, seats.fills, seats.conns) {
            Ok(report) => report,
            Err(_) => unreachable!(),
        }
    }
}
