//! The jobs of a thread that fetches: they are taken off the pool's queue, and their flights filled.
//!
//! It stands on the pool of `peer_fill` and on the values that are under way (`Fetcher`). It promises that the seat stays one
//! of the pool with its parts, and that a flight is filled with what was fetched for its own key at the endpoint of its own group, on a
//! connection that carried the request for it.
ghost use Rattle.std.specs.Prelude.{IfSome};
ghost use Rattle.peer_source.specs.Outcomes.{answer_of};
ghost use Rattle.peer_fill.specs.Pools.{source_of, IsFillSeatOf};
ghost use Rattle.peer_origin.specs.Endpoints.{request_at};
ghost use Rattle.peer_origin.specs.Fetched.{IsFetchedAnswer};
ghost use Rattle.peer_value.specs.UnderWays.{IsDoneOn};
ghost use Rattle.peer_fetch.specs.Fetchers.{MayTakeJob};
ghost use Rattle.peer_fetch.specs.Threads.{Allows, IsLaterSeat};

use crate::fetcher::Fetcher;
use crate::noted::{note_done, note_times};
use crate::opening::System;
use crate::settings::FetchPlan;
use peer_fill::{FillSeat, Gate, Pool, TakenJob};
use peer_origin::{Endpoint, Wires};
use peer_runtime::Network;
use peer_source::{Outcome, Source};
use peer_value::Done;
use std::alloc::Global;
use std::sync::ledger::Ledger;
use std::time::Duration;

// How many jobs are taken in one turn.
const JOBS_OF_TURN: usize = 1024;

/// The pool whose jobs are taken, its gate, and what is fetched.
#[derive(Drop)]
pub struct Jobs<'p, 'a, S: Source, L: Ledger, G> {
    pub alloc: Global,
    pub pool: &'p Pool<S, L>,
    pub gate: &'p G,
    pub plan: FetchPlan<'a>,
}

// Fills the flight of a job with this outcome, which was fetched at this endpoint, if that is the one of its group. No other job
// comes here, and one that did would be filled by a call of the source.
fn fill<'a, S: Source, L: Ledger, G: Gate, H: Network + Wires>(
    rt: &H,
    jobs: &Jobs<'_, 'a, S, L, G>,
    seat: &mut FillSeat<S, L>,
    endpoint: &Endpoint,
    job: TakenJob<S>,
    outcome: Outcome,
)
    requires seat { IsFillSeatOf jobs.now.pool.now seat.old }
    requires answers { Allows H.carried (S.answers (source_of jobs.now.pool.now)) jobs.now.plan }
    requires answer { IfSome (answer_of outcome) (IsFetchedAnswer H.carried (request_at endpoint.now job.place.key)) }
    ensures { IsLaterSeat jobs.now.pool.now seat.old seat.new }
{
    match jobs.plan.endpoints.of(job.group()) {
        Some(at) if at.is_at(endpoint) => jobs.pool.finish(rt, seat, job, outcome, jobs.gate),
        _ => jobs.pool.fill_job(rt, jobs.alloc, seat, job, jobs.gate),
    }
}

// Fills the flight of a job whose value was fetched, or was not, by now, and notes which.
fn fill_done<'a, S: Source, L: Ledger, G: Gate, H: Network + Wires>(
    rt: &H,
    jobs: &Jobs<'_, 'a, S, L, G>,
    seat: &mut FillSeat<S, L>,
    done: Option<Done<'a, S>>,
    now: Duration,
)
    requires seat { IsFillSeatOf jobs.now.pool.now seat.old }
    requires answers { Allows H.carried (S.answers (source_of jobs.now.pool.now)) jobs.now.plan }
    requires on { IfSome done (IsDoneOn H.carried) }
    ensures { IsLaterSeat jobs.now.pool.now seat.old seat.new }
{
    let Some(done) = done else {
        return;
    };
    let fault = done.fault();
    let endpoint = done.endpoint();
    let times = done.times();
    let (job, outcome) = done.settle::<H>(jobs.alloc);
    note_done(rt, jobs.plan.failures, &job, fault);
    note_times(rt, &jobs.plan, &job, times, now);
    fill(rt, jobs, seat, endpoint, job, outcome);
}

// Takes a job, and begins to fetch its value where its group has an endpoint. Whether there was one.
fn take_job<'a, S: Source, L: Ledger, G: Gate, H: Network + Wires>(
    system: &System<'_, H>,
    jobs: &Jobs<'_, 'a, S, L, G>,
    seat: &mut FillSeat<S, L>,
    fetcher: &mut Fetcher<'a, S, H>,
) -> bool
    requires seat { IsFillSeatOf jobs.now.pool.now seat.old }
    requires answers { Allows H.carried (S.answers (source_of jobs.now.pool.now)) jobs.now.plan }
    requires room { MayTakeJob fetcher.old }
    ensures { IsLaterSeat jobs.now.pool.now seat.old seat.new }
{
    let Some(job) = jobs.pool.take_job(system.rt, seat, jobs.gate) else {
        return false;
    };
    let group = job.group();
    match jobs.plan.endpoints.of(group) {
        Some(at) => {
            let done = fetcher.begin(system, at, job);
            fill_done(system.rt, jobs, seat, done, fetcher.now());
        }
        None => jobs
            .pool
            .fill_job(system.rt, jobs.alloc, seat, job, jobs.gate),
    }
    true
}

/// Takes jobs while there is room for their values, so many at most. Whether there was one.
pub fn take_jobs<'a, S: Source, L: Ledger, G: Gate, H: Network + Wires>(
    system: &System<'_, H>,
    jobs: &Jobs<'_, 'a, S, L, G>,
    seat: &mut FillSeat<S, L>,
    fetcher: &mut Fetcher<'a, S, H>,
) -> bool
    requires seat { IsFillSeatOf jobs.now.pool.now seat.old }
    requires answers { Allows H.carried (S.answers (source_of jobs.now.pool.now)) jobs.now.plan }
    ensures { IsLaterSeat jobs.now.pool.now seat.old seat.new }
{
    let mut took = false;
    for _ in 0..JOBS_OF_TURN {
        if !fetcher.has_room() || !take_job(system, jobs, seat, fetcher) {
            return took;
        }
        took = true;
    }
    took
}

/// Goes on with those that wait, as far as they may by now.
pub fn serve_waiting<'a, S: Source, L: Ledger, G: Gate, H: Network + Wires>(
    system: &System<'_, H>,
    jobs: &Jobs<'_, 'a, S, L, G>,
    seat: &mut FillSeat<S, L>,
    fetcher: &mut Fetcher<'a, S, H>,
)
    requires seat { IsFillSeatOf jobs.now.pool.now seat.old }
    requires answers { Allows H.carried (S.answers (source_of jobs.now.pool.now)) jobs.now.plan }
    ensures { IsLaterSeat jobs.now.pool.now seat.old seat.new }
{
    for _ in 0..fetcher.waiting_count() {
        let Some(under) = fetcher.next_waiting() else {
            return;
        };
        let done = fetcher.go_on(system, under);
        fill_done(system.rt, jobs, seat, done, fetcher.now());
    }
}

/// Gives each of those a turn that are to have one by now.
pub fn serve_ready<'a, S: Source, L: Ledger, G: Gate, H: Network + Wires>(
    system: &System<'_, H>,
    jobs: &Jobs<'_, 'a, S, L, G>,
    seat: &mut FillSeat<S, L>,
    fetcher: &mut Fetcher<'a, S, H>,
)
    requires seat { IsFillSeatOf jobs.now.pool.now seat.old }
    requires answers { Allows H.carried (S.answers (source_of jobs.now.pool.now)) jobs.now.plan }
    ensures { IsLaterSeat jobs.now.pool.now seat.old seat.new }
{
    for _ in 0..fetcher.ready_count() {
        let Some(key) = fetcher.next_ready() else {
            return;
        };
        let done = fetcher.turn(system, key);
        fill_done(system.rt, jobs, seat, done, fetcher.now());
    }
}
