//! How workers take jobs off the queue, and wait for them.
//!
//! It stands on the ruled queue of `crossbeam_queue` and the waits of `peer_wait`. It promises the oldest job.
ghost use Rattle.std.specs.Prelude.{◌≡◌, ◌<◌, MatchOption};
ghost use Rattle.crossbeam_queue.specs.Passes.{view, IsPassOf};
ghost use Rattle.peer_fill.specs.Jobs.{Popped};

use crate::jobs::{Job, PassLog, Pop};
use crate::pool::Pool;
use crossbeam_queue::Pass;
use peer_source::Source;
use peer_wait::Waiter;
use std::sync::Wait;
use std::sync::atomic::Ordering::SeqCst;
use std::sync::ledger::Ledger;

/// When a worker takes a job.
#[derive(Clone, Copy)]
pub(crate) enum Take {
    // Where there is one.
    IfThere,
    // Once there is one, or none where the pool was stopped.
    OnceThere,
}

impl<S: Source, L: Ledger> Pool<S, L> {
    /// The oldest job, where there is one. Where there is none, all who wait for room are told.
    pub(crate) fn pop_job<R: Wait>(
        &self,
        rt: &R,
        pass: &mut Pass<Job<S>, PassLog>,
    ) -> Option<Job<S>>
        requires pass { IsPassOf self.now.jobs pass.old }
        requires part { 0 < (view pass.old).parts }
        ensures pass { IsPassOf self.now.jobs pass.new }
        ensures popped { MatchOption result (view pass.new ≡ view pass.old) (λ job. Popped (view pass.old) job (view pass.new)) }
    {
        let Some(job) = self.jobs.pop_as::<Pop, R>(rt, pass) else {
            self.signals.room.notify_all();
            return None;
        };
        Some(job)
    }

    // The oldest job, once there is one, or none where the pool was stopped before a look that found none.
    fn next_job<R: Wait>(&self, rt: &R, pass: &mut Pass<Job<S>, PassLog>) -> Option<Job<S>>
        requires pass { IsPassOf self.now.jobs pass.old }
        requires part { 0 < (view pass.old).parts }
        ensures pass { IsPassOf self.now.jobs pass.new }
        ensures popped { MatchOption result (view pass.new ≡ view pass.old) (λ job. Popped (view pass.old) job (view pass.new)) }
    {
        let mut waiter = Waiter::new(&self.signals.job);
        for _ in rt.forever() {
            let stopping = self.stopping.load(SeqCst);
            if let Some(job) = self.pop_job(rt, pass) {
                if waiter.may_have_slept() {
                    self.wake_next(pass);
                }
                return Some(job);
            }
            if stopping {
                return None;
            }
            waiter.pause(rt);
        }
        unreachable!()
    }

    /// The oldest job, where there is one or once there is one.
    pub(crate) fn take<R: Wait>(
        &self,
        rt: &R,
        pass: &mut Pass<Job<S>, PassLog>,
        take: Take,
    ) -> Option<Job<S>>
        requires pass { IsPassOf self.now.jobs pass.old }
        requires part { 0 < (view pass.old).parts }
        ensures pass { IsPassOf self.now.jobs pass.new }
        ensures popped { MatchOption result (view pass.new ≡ view pass.old) (λ job. Popped (view pass.old) job (view pass.new)) }
    {
        match take {
            Take::IfThere => self.pop_job(rt, pass),
            Take::OnceThere => self.next_job(rt, pass),
        }
    }

    // A worker that was woken wakes the next one, where more jobs are left.
    fn wake_next(&self, pass: &mut Pass<Job<S>, PassLog>)
        requires pass { IsPassOf self.now.jobs pass.old }
        ensures pass { IsPassOf self.now.jobs pass.new }
        ensures same { view pass.new ≡ view pass.old }
    {
        self.signals.job.acknowledge();
        if !self.jobs.is_empty_as::<Pop>(pass) {
            self.signals.job.notify_one();
        }
    }
}
