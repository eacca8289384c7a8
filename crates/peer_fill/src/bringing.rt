//! Jobs that are taken for whoever brings their answers from elsewhere.
//!
//! It stands on the flights of `peer_flight` and the answers of `peer_source`. It promises that a seat counts a call for each
//! job that it is given, and that only an answer that the source may give is set.
ghost use Rattle.std.specs.Prelude.{◌≡◌, ◌+◌, ◌≤◌, IfSome};
ghost use Rattle.peer_flight.specs.SingleFlight.{place_of};
ghost use Rattle.peer_fill.specs.Seats.{fills_of, fill_parts};

use crate::gate::Gate;
use crate::jobs::Job;
use crate::pool::Pool;
use crate::seats::FillSeat;
use peer_flight::FillRight;
use peer_source::{Fill, GroupId, Outcome, Source};
use peer_view::ByteView;
use std::alloc::Global;
use std::marker::Model;
use std::sync::Wait;
use std::sync::ledger::Ledger;

/// A job that was taken, for whoever brings its answer. Each is to be handed to `Pool::finish` or `Pool::fill_job`: those
/// who wait for the flight of one that is let go wait for ever.
#[derive(Drop)]
pub struct TakenJob<S: Source> {
    right: FillRight<S>,
    key: ByteView,
}

impl<S: Source> Model for TakenJob<S> {
    ghost use Rattle.std.specs.Prelude.{◌≡◌};
    ghost use Rattle.peer_flight.specs.Flights.{FlightId};

    ghost Value = { FlightId };

    ghost view = { λ j. j.right };

    ghost invariant = { λ j. j.key ≡ j.right.place.key };
}

impl<S: Source> TakenJob<S> {
    /// The group that was asked for.
    pub fn group(&self) -> GroupId
        ensures { result.number ≡ self.now.place.group }
    {
        self.right.flight().group()
    }

    /// The key that was asked for.
    pub fn key(&self) -> &[u8]
        ensures { result.now ≡ self.now.place.key }
    {
        self.key.as_slice()
    }
}

impl<S: Source, L: Ledger> Pool<S, L> {
    ghost use Rattle.peer_fill.specs.Pools.{source_of, IsFillSeatOf};
    ghost use Rattle.peer_fill.specs.Works.{job_count};
    ghost use Rattle.peer_source.specs.Outcomes.{answer_of};

    /// The oldest job, where there is one, for a caller that brings its answer from elsewhere and hands it to `finish`. It
    /// waits for no job, and takes none once its seat has taken 2^56. The seat counts a call for it. Jobs whose value is
    /// kept by then are filled on the way.
    pub fn take_job<R: Wait, G: Gate>(
        &self,
        rt: &R,
        seat: &mut FillSeat<S, L>,
        gate: &G,
    ) -> Option<TakenJob<S>>
        requires seat { IsFillSeatOf self.now seat.old }
        ensures seat { IsFillSeatOf self.now seat.new }
        ensures parts { fill_parts seat.new ≡ fill_parts seat.old }
        ensures calls { (fills_of seat.new).calls ≡ (fills_of seat.old).calls + job_count result }
        ensures rehits { (fills_of seat.old).rehits ≤ (fills_of seat.new).rehits }
    {
        while seat.may_take() {
            let Some(job) = self.pop_job(rt, &mut seat.pass) else {
                return None;
            };
            let Job { right, key } = job;
            let group = right.flight().group();
            gate.after_take(rt, group, key.as_slice());
            let Some(fill) = self.cached_fill(rt, group, &key) else {
                seat.fills.calls += 1;
                self.tell_counts(group, &seat.fills, gate);
                return Some(TakenJob { right, key });
            };
            seat.fills.rehits += 1;
            self.tell_counts(group, &seat.fills, gate);
            self.put_and_land(rt, right, fill, gate);
        }
        None
    }

    /// Fills the flight of the job as a worker does: by a call of the source. A value that it finds is kept, unless memory
    /// refuses that. Those who wait are told, and the flight is landed.
    pub fn fill_job<R: Wait, G: Gate>(
        &self,
        rt: &R,
        alloc: Global,
        seat: &mut FillSeat<S, L>,
        job: TakenJob<S>,
        gate: &G,
    )
        requires { IsFillSeatOf self.now seat.old }
        ensures seat { IsFillSeatOf self.now seat.new }
        ensures parts { fill_parts seat.new ≡ fill_parts seat.old }
        ensures counts { fills_of seat.new ≡ fills_of seat.old }
    {
        let TakenJob { right, key } = job;
        let fill = Fill::run(alloc, &self.source, right.flight().group(), key);
        self.settle(rt, seat, right, fill, gate);
    }

    /// Sets the fill of the job's flight: this answer. A value that was found is kept, unless memory refuses that. Those who
    /// wait are told, and the flight is landed.
    pub fn finish<R: Wait, G: Gate>(
        &self,
        rt: &R,
        seat: &mut FillSeat<S, L>,
        job: TakenJob<S>,
        outcome: Outcome,
        gate: &G,
    )
        requires seat { IsFillSeatOf self.now seat.old }
        requires answer { IfSome (answer_of outcome) (S.answers (source_of self.now) job.place.group job.place.key) }
        ensures seat { IsFillSeatOf self.now seat.new }
        ensures parts { fill_parts seat.new ≡ fill_parts seat.old }
        ensures counts { fills_of seat.new ≡ fills_of seat.old }
    {
        let TakenJob { right, key } = job;
        let fill = Fill::of_answer(right.flight().group(), key, outcome);
        self.settle(rt, seat, right, fill, gate);
    }

    // Keeps what the fill of the flight found, sets it, and lands the flight.
    fn settle<R: Wait, G: Gate>(
        &self,
        rt: &R,
        seat: &mut FillSeat<S, L>,
        right: FillRight<S>,
        fill: Fill<S>,
        gate: &G,
    )
        requires place { place_of fill.group fill.key ≡ right.place }
        requires answer { IfSome fill.answer (S.answers (source_of self.now) fill.group fill.key) }
        ensures same { (seat.new.pass ≡ seat.old.pass) × (fill_parts seat.new ≡ fill_parts seat.old) }
        ensures counts { fills_of seat.new ≡ fills_of seat.old }
    {
        self.caches.keep(rt, &fill, &mut seat.evicted);
        self.put_and_land(rt, right, fill, gate);
    }
}
