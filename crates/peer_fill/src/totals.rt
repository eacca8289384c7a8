//! Totals: what the seats that were handed in have together.
ghost use Rattle.std.specs.Prelude.{◌≡◌, ℕ, ◌+◌, ◌++◌, ◌*◌, ◌^◌, ◌≤◌, ◌<◌, length};
ghost use Rattle.crossbeam_queue.specs.Passes.{view, IsPassOf};
ghost use Rattle.peer_fill.specs.Counts.{no_fills};
ghost use Rattle.peer_fill.specs.Jobs.{left_count};
ghost use Rattle.peer_fill.specs.Seats.{asks_of, conn_parts, fill_parts};

use crate::counts::{AskCounts, FillCounts};
use crate::jobs::{Job, Jobs, OnePart, PassLog};
use crate::seats::{ConnSeat, FillSeat};
use crossbeam_queue::Pass;
use peer_source::Source;
use std::sync::ledger::{Ledger, Share};

/// Sums over seats, of which one at least is a connection's.
#[derive(Drop)]
pub struct Totals<S: Source, L: Ledger> {
    pub pass: Pass<Job<S>, PassLog>,
    pub share: Share<L>,
    pub conn_parts: u64,
    pub fill_parts: u64,
    pub asks: AskCounts,
    pub fills: FillCounts,
    /// The jobs that were left with the seats.
    pub left: u64,
    ghost conns_within: { (0 < conn_parts) × (conn_parts ≤ 16) },
    ghost fills_within: { fill_parts ≤ 16 },
    ghost pass_parts: { (view pass).parts ≡ conn_parts + fill_parts },
    ghost share_parts: { share.parts ≡ conn_parts },
    ghost most_left: { left ≤ conn_parts },
    ghost pushed: { length (view pass).pushed + left ≡ asks.led },
    ghost popped: { length (view pass).popped ≡ fills.calls + fills.rehits },
    ghost share_led: { share.amount ≡ asks.led },
    ghost each_ask: { asks.asked ≡ asks.hits + asks.led + asks.joined },
    ghost most_asked: { asks.asked ≤ conn_parts * 2 ^ 56 },
    ghost most_strangers: { asks.strangers ≤ conn_parts * 2 ^ 56 },
    ghost most_fills: { fills.calls + fills.rehits ≤ fill_parts * 2 ^ 56 },
}

// The job that was left with a seat, counted.
fn count_left<S: Source>(left: Option<Job<S>>) -> u64
    ensures { result ≡ left_count left }
{
    match left {
        Some(_) => 1,
        None => 0,
    }
}

impl<S: Source, L: Ledger> Totals<S, L> {
    ghost use Rattle.peer_fill.specs.Gatherings.{AddsConn, AddsFill};

    /// The totals of one seat.
    pub(crate) fn of(seat: ConnSeat<S, L>) -> Totals<S, L>
        ensures pass { result.pass ≡ seat.pass }
        ensures conn_parts { result.conn_parts ≡ conn_parts seat }
        ensures fill_parts { result.fill_parts ≡ 0 }
        ensures asks { result.asks ≡ asks_of seat }
        ensures fills { result.fills ≡ no_fills }
    {
        let ConnSeat {
            pass,
            share,
            parts,
            asks,
            left,
            ..
        } = seat;
        Totals {
            pass,
            share,
            conn_parts: parts,
            fill_parts: 0,
            asks,
            fills: FillCounts::none(),
            left: count_left(left),
        }
    }

    /// Takes in a connection's seat.
    pub(crate) fn add_conn(&mut self, jobs: &Jobs<S>, seat: ConnSeat<S, L>)
        requires pass { IsPassOf jobs.now self.old.pass × IsPassOf jobs.now seat.pass }
        requires room { self.old.conn_parts + conn_parts seat ≤ 16 }
        ensures pass { IsPassOf jobs.now self.new.pass }
        ensures adds { AddsConn self.old seat self.new }
    {
        jobs.absorb::<OnePart>(&mut self.pass, seat.pass);
        self.share.merge(seat.share);
        self.conn_parts += seat.parts;
        self.asks = self.asks.plus(seat.asks);
        self.left += count_left(seat.left);
    }

    /// Takes in a worker's seat.
    pub(crate) fn add_fill(&mut self, jobs: &Jobs<S>, seat: FillSeat<S, L>)
        requires pass { IsPassOf jobs.now self.old.pass × IsPassOf jobs.now seat.pass }
        requires room { self.old.fill_parts + fill_parts seat ≤ 16 }
        ensures pass { IsPassOf jobs.now self.new.pass }
        ensures adds { AddsFill self.old seat self.new }
    {
        jobs.absorb::<OnePart>(&mut self.pass, seat.pass);
        self.fill_parts += seat.parts;
        self.fills.calls += seat.fills.calls;
        self.fills.rehits += seat.fills.rehits;
    }
}
