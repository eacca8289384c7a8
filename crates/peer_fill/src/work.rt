//! What workers do with a pool: they take jobs, look into the cache, call the source, and put fills.
//!
//! It promises that a seat counts each job once, as a call or as a rehit, and comes back with its parts.
ghost use Rattle.std.specs.Prelude.{◌≡◌, ◌+◌, ◌<◌, ◌≤◌, ◌^◌, cond};
ghost use Rattle.peer_fill.specs.Seats.{fills_of, fill_parts};

use crate::gate::Gate;
use crate::jobs::Job;
use crate::pool::Pool;
use crate::seats::FillSeat;
use crate::taking::Take;
use peer_source::Source;
use std::alloc::Global;
use std::sync::Wait;
use std::sync::ledger::Ledger;

impl<S: Source, L: Ledger> Pool<S, L> {
    ghost use Rattle.peer_fill.specs.Counts.{taken_of};
    ghost use Rattle.peer_fill.specs.Pools.{IsFillSeatOf};

    // Takes a job and fills its flight. Whether there was one.
    fn work_one<R: Wait, G: Gate>(
        &self,
        rt: &R,
        alloc: Global,
        seat: &mut FillSeat<S, L>,
        take: Take,
        gate: &G,
    ) -> bool
        requires seat { IsFillSeatOf self.now seat.old }
        requires most { taken_of (fills_of seat.old) < 2 ^ 56 }
        ensures seat { IsFillSeatOf self.now seat.new }
        ensures parts { fill_parts seat.new ≡ fill_parts seat.old }
        ensures calls { (fills_of seat.old).calls ≤ (fills_of seat.new).calls }
        ensures rehits { (fills_of seat.old).rehits ≤ (fills_of seat.new).rehits }
        ensures counted { taken_of (fills_of seat.new) ≡ taken_of (fills_of seat.old) + cond result 1 0 }
    {
        let Some(job) = self.take(rt, &mut seat.pass, take) else {
            return false;
        };
        let Job { right, key } = job;
        let group = right.flight().group();
        gate.after_take(rt, group, key.as_slice());
        let kept = self.cached_fill(rt, group, &key);
        let made = self.make(alloc, kept, group, key);
        self.keep_made(rt, &made, &mut seat.evicted);
        seat.fills.count(&made);
        self.tell_counts(group, &seat.fills, gate);
        self.put_and_land(rt, right, made.into_fill(), gate);
        true
    }

    /// Takes jobs until it has seen that the pool was stopped and then finds no job, or until its seat has taken 2^56.
    pub fn run_worker<R: Wait, G: Gate>(
        &self,
        rt: &R,
        alloc: Global,
        seat: FillSeat<S, L>,
        gate: &G,
    ) -> FillSeat<S, L>
        requires { IsFillSeatOf self.now seat }
        ensures seat { IsFillSeatOf self.now result }
        ensures parts { fill_parts result ≡ fill_parts seat }
        ensures calls { (fills_of seat).calls ≤ (fills_of result).calls }
        ensures rehits { (fills_of seat).rehits ≤ (fills_of result).rehits }
    {
        let mut seat = seat;
        while seat.may_take() {
            if !self.work_one(rt, alloc, &mut seat, Take::OnceThere, gate) {
                break;
            }
        }
        seat
    }

    /// Fills the jobs that are there, so many at most, and waits for none. Once its seat has taken 2^56, it fills none. How
    /// many it filled.
    pub fn work_some<R: Wait, G: Gate>(
        &self,
        rt: &R,
        alloc: Global,
        seat: &mut FillSeat<S, L>,
        most: usize,
        gate: &G,
    ) -> usize
        requires seat { IsFillSeatOf self.now seat.old }
        ensures seat { IsFillSeatOf self.now seat.new }
        ensures parts { fill_parts seat.new ≡ fill_parts seat.old }
        ensures most { result ≤ most }
        ensures calls { (fills_of seat.old).calls ≤ (fills_of seat.new).calls }
        ensures rehits { (fills_of seat.old).rehits ≤ (fills_of seat.new).rehits }
        ensures counted { taken_of (fills_of seat.new) ≡ taken_of (fills_of seat.old) + result }
    {
        let mut done = 0;
        while done < most && seat.may_take() {
            if !self.work_one(rt, alloc, seat, Take::IfThere, gate) {
                break;
            }
            done += 1;
        }
        done
    }
}
