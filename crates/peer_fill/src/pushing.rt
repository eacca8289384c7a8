//! How the jobs of flights that are led come into the queue.
//!
//! It stands on the ruled queue of `crossbeam_queue` and the waits of `peer_wait`. It promises that no job is lost where the
//! queue is full: it is left with its seat, and put once there is room.
ghost use Rattle.std.specs.Prelude.{◌≡◌, ◌<◌, ◌↔◌, None, IsSome, IsTrue, MatchOption};
ghost use Rattle.crossbeam_queue.specs.Passes.{view, IsPassOf};
ghost use Rattle.peer_fill.specs.Jobs.{Pushed};
ghost use Rattle.peer_fill.specs.Seats.{asks_of, left_of};

use crate::jobs::{Job, PassLog, Push};
use crate::pool::Pool;
use crate::seats::ConnSeat;
use crossbeam_queue::Pass;
use peer_source::Source;
use peer_wait::Waiter;
use std::sync::Wait;
use std::sync::ledger::Ledger;

impl<S: Source, L: Ledger> Pool<S, L> {
    ghost use Rattle.peer_fill.specs.Claiming.{KeepsSeat};
    ghost use Rattle.peer_fill.specs.Pools.{IsConnSeatOf};

    /// Pushes the job, unless the queue is full: then the job comes back.
    pub(crate) fn push<R: Wait>(
        &self,
        rt: &R,
        pass: &mut Pass<Job<S>, PassLog>,
        job: Job<S>,
    ) -> Option<Job<S>>
        requires pass { IsPassOf self.now.jobs pass.old }
        requires part { 0 < (view pass.old).parts }
        ensures pass { IsPassOf self.now.jobs pass.new }
        ensures pushed { MatchOption result (Pushed (view pass.old) job (view pass.new))
            (λ back. (back ≡ job) × (view pass.new ≡ view pass.old)) }
    {
        match self.jobs.push_as::<Push, R>(rt, pass, job) {
            Ok(()) => {
                self.signals.job.notify_one();
                None
            }
            Err(back) => Some(back),
        }
    }

    /// Pushes the job that is left with the seat, where there is one and the queue has room for it now. Whether none is
    /// left with it.
    pub fn put_left<R: Wait>(&self, rt: &R, seat: &mut ConnSeat<S, L>) -> bool
        requires seat { IsConnSeatOf self.now seat.old }
        ensures seat { KeepsSeat self.now seat.old seat.new }
        ensures counts { asks_of seat.new ≡ asks_of seat.old }
        ensures exactly { IsTrue result ↔ (left_of seat.new ≡ None) }
        ensures left { IsSome (left_of seat.new) → left_of seat.new ≡ left_of seat.old }
    {
        let Some(job) = seat.left.take() else {
            return true;
        };
        let back = self.push(rt, &mut seat.pass, job);
        let is_put = back.is_none();
        seat.left = back;
        is_put
    }

    /// Waits until no job is left with the seat.
    pub(crate) fn put_all<R: Wait>(&self, rt: &R, seat: &mut ConnSeat<S, L>)
        requires seat { IsConnSeatOf self.now seat.old }
        ensures seat { KeepsSeat self.now seat.old seat.new }
        ensures counts { asks_of seat.new ≡ asks_of seat.old }
        ensures none { left_of seat.new ≡ None }
    {
        let mut waiter = Waiter::new(&self.signals.room);
        for _ in rt.forever() {
            if self.put_left(rt, seat) {
                if waiter.may_have_slept() {
                    self.signals.room.pass_on();
                }
                return;
            }
            waiter.pause(rt);
        }
        unreachable!()
    }
}
