//! The thread that fetches: it takes jobs, waits for its connections, and fills flights.
//!
//! Who pushes a job wakes it where it sleeps; who pushes no more closes its waker. It looks for jobs until it finds none, and
//! once more behind saying that it falls asleep. Where it has no room for another value it does not say so, and need not be
//! woken: it looks for jobs once one is done or given up. Where that last look filled it, who pushed may have found it asleep and woken
//! it for a job that it cannot take; then it wakes another thread.
ghost use Rattle.std.specs.Prelude.{◌≡◌, IsTrue};
ghost use Rattle.peer_fill.specs.Pools.{source_of, IsFillSeatOf};
ghost use Rattle.peer_fetch.specs.Fetchers.{HasNothing};
ghost use Rattle.peer_fetch.specs.Threads.{Allows, IsLaterSeat};

use crate::fetcher::Fetcher;
use crate::jobs::{Jobs, serve_ready, serve_waiting, take_jobs};
use crate::opening::System;
use crate::room::Room;
use crate::settings::FetchPlan;
use mio::{Events, Poll};
use peer_fill::{FillSeat, Gate, Pool};
use peer_origin::Wires;
use peer_runtime::{Network, OwnWaker, PollWaker, WOKEN};
use peer_source::Source;
use std::alloc::Global;
use std::net::Net;
use std::sync::ledger::Ledger;
use std::thread;
use std::time::{Duration, Instant};

// How many events one wait gives.
const MAX_EVENTS: usize = 1024;

/// What the system and memory give a thread that fetches, before it is one.
#[derive(Drop)]
pub struct FetchParts {
    poll: Poll,
    events: Events,
    room: Room,
}

/// A thread that fetches, beside its seat. It may be sent to the thread.
#[derive(Drop)]
pub struct FetchThread<'a> {
    alloc: Global,
    parts: FetchParts,
    plan: FetchPlan<'a>,
}

// A thread that fetches, while it runs.
#[derive(Drop)]
struct Running<'a, S: Source, H: Wires> {
    poll: Poll,
    events: Events,
    fetcher: Fetcher<'a, S, H>,
    pause: Duration,
    begun: Option<Instant>,
}

// Gets ready to wait, and says for how long. Where there is room for a value, jobs are taken once more behind saying that
// the thread falls asleep.
fn prepare_wait<'a, S: Source, L: Ledger, G: Gate, H: Network + Wires>(
    system: &System<'_, H>,
    jobs: &Jobs<'_, 'a, S, L, G>,
    seat: &mut FillSeat<S, L>,
    fetcher: &mut Fetcher<'a, S, H>,
    waker: OwnWaker<'_>,
) -> Option<Duration>
    requires seat { IsFillSeatOf jobs.now.pool.now seat.old }
    requires answers { Allows H.carried (S.answers (source_of jobs.now.pool.now)) jobs.now.plan }
    ensures { IsLaterSeat jobs.now.pool.now seat.old seat.new }
{
    if fetcher.is_ready() {
        return Some(Duration::ZERO);
    }
    if fetcher.has_room() {
        waker.own.fall_asleep();
        let took = take_jobs(system, jobs, seat, fetcher);
        if !fetcher.has_room() {
            waker.pass_on();
        }
        if took || waker.own.is_closed() && fetcher.is_empty() {
            return Some(Duration::ZERO);
        }
    }
    fetcher.time_left()
}

// Takes jobs, and gives those that are ready their turn. Whether all is done: no more jobs are pushed, there is none, and
// no value is under way or waits.
fn work_on<'a, S: Source, L: Ledger, G: Gate, H: Network + Wires>(
    system: &System<'_, H>,
    jobs: &Jobs<'_, 'a, S, L, G>,
    seat: &mut FillSeat<S, L>,
    fetcher: &mut Fetcher<'a, S, H>,
    waker: OwnWaker<'_>,
) -> bool
    requires seat { IsFillSeatOf jobs.now.pool.now seat.old }
    requires answers { Allows H.carried (S.answers (source_of jobs.now.pool.now)) jobs.now.plan }
    ensures seat { IsLaterSeat jobs.now.pool.now seat.old seat.new }
    ensures done { IsTrue result → HasNothing fetcher.new }
{
    let stopping = waker.own.is_closed();
    let took = take_jobs(system, jobs, seat, fetcher);
    serve_ready(system, jobs, seat, fetcher);
    serve_waiting(system, jobs, seat, fetcher);
    stopping && !took && fetcher.is_empty()
}

impl FetchParts {
    /// What a thread needs that fetches by this plan, and what wakes it. None where memory or the system refuses it.
    pub fn new<H: Net>(
        rt: &H,
        alloc: Global,
        plan: &FetchPlan<'_>,
    ) -> Option<(FetchParts, PollWaker)> {
        let poll = Poll::new(rt).ok()?;
        let waker = PollWaker::new(&poll)?;
        let events = Events::with_capacity(alloc, MAX_EVENTS).ok()?;
        let room = Room::new(alloc, plan).ok()?;
        Some((FetchParts { poll, events, room }, waker))
    }
}

impl<'a> FetchThread<'a> {
    /// A thread that fetches by this plan.
    pub fn new(alloc: Global, parts: FetchParts, plan: FetchPlan<'a>) -> FetchThread<'a>
        ensures { result.plan ≡ plan.entry }
    {
        FetchThread { alloc, parts, plan }
    }

    /// Takes jobs of the pool and fills their flights with what the origins answer, until the waker was closed, there is no
    /// job, and no value is under way or waits. For a group without an endpoint the source is called.
    pub fn run<S: Source, L: Ledger, G: Gate, H: Network + Wires>(
        self,
        rt: &H,
        pool: &Pool<S, L>,
        seat: FillSeat<S, L>,
        waker: OwnWaker<'_>,
        gate: &G,
    ) -> FillSeat<S, L>
        requires seat { IsFillSeatOf pool.now seat }
        requires answers { Allows H.carried (S.answers (source_of pool.now)) self.plan }
        ensures { IsLaterSeat pool.now seat result }
    {
        let FetchThread { alloc, parts, plan } = self;
        let FetchParts { poll, events, room } = parts;
        let mut thread = Running {
            poll,
            events,
            fetcher: Fetcher::new(alloc, &plan, room),
            pause: plan.settings.pause,
            begun: Instant::now(rt).ok(),
        };
        let mut seat = seat;
        let jobs = Jobs {
            alloc,
            pool,
            gate,
            plan,
        };
        thread.run(rt, &jobs, &mut seat, waker);
        seat
    }
}

impl<'a, S: Source, H: Network + Wires> Running<'a, S, H> {
    // Waits for events so long, and notes them.
    fn wait(&mut self, rt: &H, time: Option<Duration>, waker: OwnWaker<'_>) {
        let waited = self.poll.poll(&mut self.events, time);
        let _ = waker.own.stay_awake();
        if waited.is_err() {
            thread::sleep(rt, self.pause);
            return;
        }
        for event in self.events.iter() {
            if event.token() != WOKEN {
                self.fetcher.note(event);
            }
        }
    }

    // One turn: gives up what is late, takes jobs, serves those that are ready, and waits. Whether all is done.
    fn turn<L: Ledger, G: Gate>(
        &mut self,
        rt: &H,
        jobs: &Jobs<'_, 'a, S, L, G>,
        seat: &mut FillSeat<S, L>,
        waker: OwnWaker<'_>,
    ) -> bool
        requires seat { IsFillSeatOf jobs.now.pool.now seat.old }
        requires answers { Allows H.carried (S.answers (source_of jobs.now.pool.now)) jobs.now.plan }
        ensures seat { IsLaterSeat jobs.now.pool.now seat.old seat.new }
        ensures done { IsTrue result → HasNothing self.new.fetcher }
    {
        let system = System {
            rt,
            registry: self.poll.registry(),
            begun: self.begun,
        };
        self.fetcher.give_up_late(&system);
        if work_on(&system, jobs, seat, &mut self.fetcher, waker) {
            return true;
        }
        let time = prepare_wait(&system, jobs, seat, &mut self.fetcher, waker);
        self.fetcher.tell_held();
        self.wait(rt, time, waker);
        false
    }

    // Gives itself turns until all is done.
    fn run<L: Ledger, G: Gate>(
        &mut self,
        rt: &H,
        jobs: &Jobs<'_, 'a, S, L, G>,
        seat: &mut FillSeat<S, L>,
        waker: OwnWaker<'_>,
    )
        requires seat { IsFillSeatOf jobs.now.pool.now seat.old }
        requires answers { Allows H.carried (S.answers (source_of jobs.now.pool.now)) jobs.now.plan }
        ensures seat { IsLaterSeat jobs.now.pool.now seat.old seat.new }
        ensures done { HasNothing self.new.fetcher }
    {
        for _ in rt.forever() {
            if self.turn(rt, jobs, seat, waker) {
                return;
            }
        }
        unreachable!()
    }
}
