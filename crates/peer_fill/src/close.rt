//! How a pool ends: its seats are taken in, and what they counted is added up.
ghost use Rattle.std.specs.Prelude.{◌≡◌, ◌+◌, [], All};
ghost use Rattle.crossbeam_queue.specs.Passes.{view, IsPassOf};
ghost use Rattle.peer_fill.specs.Counts.{no_fills};
ghost use Rattle.peer_fill.specs.Gatherings.{GathersConns, GathersFills};
ghost use Rattle.peer_fill.specs.Seats.{HaveAllConns, HaveAllFills};

use crate::closed::Closed;
use crate::jobs::{Jobs, Whole};
use crate::pool::Pool;
use crate::seats::{ConnSeat, FillSeat};
use crate::totals::Totals;
use peer_source::Source;
use std::sync::Wait;
use std::sync::ledger::Ledger;

/// What all seats of a pool counted, and what was left of its jobs.
#[derive(Clone, Copy, Debug, PartialEq, Eq)]
pub struct Report {
    pub asked: u64,
    pub hits: u64,
    pub led: u64,
    pub joined: u64,
    pub strangers: u64,
    pub calls: u64,
    pub rehits: u64,
    /// The jobs that no worker took.
    pub left: u64,
}

/// Why a pool was not closed.
#[derive(Drop)]
pub enum CloseFault<S: Source, L: Ledger> {
    /// Not all seats were handed in. All that was handed in comes back.
    SeatsMissing {
        pool: Pool<S, L>,
        fills: Vec<FillSeat<S, L>>,
        conns: Vec<ConnSeat<S, L>>,
    },
}

/// Takes in all seats of the connections.
pub(crate) fn gather_conns<S: Source, L: Ledger>(
    jobs: &Jobs<S>,
    mut conns: Vec<ConnSeat<S, L>>,
) -> Totals<S, L>
    requires all { HaveAllConns conns.items }
    requires pass { All (λ seat. IsPassOf jobs.now seat.pass) conns.items }
    ensures pass { IsPassOf jobs.now result.pass }
    ensures gathers { GathersConns conns.items result }
{
    let Some(first) = conns.pop() else {
        unreachable!();
    };
    let mut totals = Totals::of(first);
    while let Some(seat) = conns.pop() {
        totals.add_conn(jobs, seat);
    }
    totals
}

/// Takes in all seats of the workers.
pub(crate) fn gather_fills<S: Source, L: Ledger>(
    jobs: &Jobs<S>,
    mut totals: Totals<S, L>,
    mut fills: Vec<FillSeat<S, L>>,
) -> Totals<S, L>
    requires none { (totals.fill_parts ≡ 0) × (totals.fills ≡ no_fills) }
    requires popped { (view totals.pass).popped ≡ [] }
    requires all { HaveAllFills fills.items }
    requires pass { IsPassOf jobs.now totals.pass × All (λ seat. IsPassOf jobs.now seat.pass) fills.items }
    ensures pass { IsPassOf jobs.now result.pass }
    ensures gathers { GathersFills fills.items totals result }
{
    while let Some(seat) = fills.pop() {
        totals.add_fill(jobs, seat);
    }
    totals
}

impl<S: Source, L: Ledger> Closed<S, L> {
    ghost use Rattle.peer_fill.specs.Closes.{asks_in, fills_in, flights_in, LeavesJobs};
    ghost use Rattle.peer_fill.specs.Totals.{Reports};

    /// What its seats counted, and what is left of its jobs.
    pub fn report<R: Wait>(self, rt: &R) -> Report
        ensures led { result.led ≡ flights_in self }
        ensures left { LeavesJobs self result.left }
        ensures asks { Reports result (asks_in self) (fills_in self) }
        ensures each_ask { result.asked ≡ result.hits + result.led + result.joined }
        ensures each_flight { result.led ≡ result.calls + result.rehits + result.left }
    {
        let Closed {
            jobs,
            mut table,
            sixteen,
            totals,
        } = self;
        let Totals {
            mut pass,
            mut share,
            conn_parts: _,
            fill_parts: _,
            asks,
            fills,
            left,
        } = totals;
        let queued = jobs.len_as::<Whole, R>(rt, &mut pass) as u64;
        let led = table.count_led(&sixteen, &mut share);
        Report {
            asked: asks.asked,
            hits: asks.hits,
            led,
            joined: asks.joined,
            strangers: asks.strangers,
            calls: fills.calls,
            rehits: fills.rehits,
            left: left + queued,
        }
    }
}
