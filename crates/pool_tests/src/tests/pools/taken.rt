//! A thread that takes jobs for whoever brings their answers: who waits for room in the queue of jobs is told of it.
ghost use Rattle.std.specs.Prelude.{◌≡◌, ◌<◌, All};
ghost use Rattle.peer_fill.specs.Pools.{source_of, IsConnSeatOf, IsFillSeatOf};

use super::numbering::Numbering;
use super::threads::take_a_while;
use crate::tests::values::ECHO;
use peer_fill::{ConnSeat, FillSeat, NoGate, Pool, Report, Seats, TakenJob, pop_seat};
use peer_source::Source;
use std::alloc::Global;
use std::marker::Brand;
use std::sync::Wait;
use std::sync::atomic::AtomicBool;
use std::sync::atomic::Ordering::SeqCst;
use std::sync::ledger::{Blank, Ledger};
use std::thread;
use std::thread::Threads;
use test_support::{all_called, ask_in, close_pool, open_pool, push_seat};

// One key more than the queue has room for jobs.
const KEYS: u16 = 257;

// Behind so many jobs that were taken, who waits for room is told.
const TAKEN: usize = 32;

// How many times a while it takes at most until a thread that was woken has run.
const WHILES: u32 = 500;

// A pool, and whether all its keys were asked for.
#[derive(Drop)]
struct Taken<'p, S: Source, L: Ledger, R> {
    rt: &'p R,
    alloc: Global,
    pool: &'p Pool<S, L>,
    asked: &'p AtomicBool,
}

impl<'p, S: Source, L: Ledger, R: Wait> Taken<'p, S, L, R> {
    // Asks for each key. The last waits for room.
    fn ask_all(&self, seat: ConnSeat<S, L>) -> ConnSeat<S, L>
        requires seat { IsConnSeatOf self.now.pool.now seat }
        requires groups { 0 < S.count (source_of self.now.pool.now) }
        ensures { IsConnSeatOf self.now.pool.now result }
    {
        let mut seat = seat;
        for number in 0..KEYS {
            let key = number.to_be_bytes();
            let _ = ask_in(self.rt, self.alloc, self.pool, &mut seat, ECHO, &key);
        }
        self.asked.store(true, SeqCst);
        self.pool.stop();
        seat
    }

    // Takes jobs, and keeps them.
    fn take_some(&self, seat: &mut FillSeat<S, L>, jobs: &mut Vec<TakenJob<S>>)
        requires { IsFillSeatOf self.now.pool.now seat.old }
        ensures { IsFillSeatOf self.now.pool.now seat.new }
    {
        for _ in 0..TAKEN {
            if let Some(job) = self.pool.take_job(self.rt, seat, &NoGate) {
                let _ = jobs.push(job);
            }
        }
    }

    // Whether all is asked for soon.
    fn is_asked(&self) -> bool {
        for _ in 0..WHILES {
            if self.asked.load(SeqCst) {
                return true;
            }
            take_a_while();
        }
        false
    }

    // Fills the flights of the jobs that were taken, and then those of all others.
    fn fill_all(&self, seat: FillSeat<S, L>, taken: Vec<TakenJob<S>>) -> FillSeat<S, L>
        requires { IsFillSeatOf self.now.pool.now seat }
        ensures { IsFillSeatOf self.now.pool.now result }
    {
        let mut seat = seat;
        for job in taken {
            self.pool
                .fill_job(self.rt, self.alloc, &mut seat, job, &NoGate);
        }
        self.pool.run_worker(self.rt, self.alloc, seat, &NoGate)
    }

    // Takes jobs once the queue is full and who asks sleeps, and fills none before all is asked for. Whether that is soon.
    fn take_and_fill(&self, seat: FillSeat<S, L>) -> (FillSeat<S, L>, bool)
        requires { IsFillSeatOf self.now.pool.now seat }
        ensures { IsFillSeatOf self.now.pool.now result.0 }
    {
        let mut seat = seat;
        let mut jobs = Vec::new(self.alloc);
        for _ in 0..10 {
            take_a_while();
        }
        self.take_some(&mut seat, &mut jobs);
        let is_asked = self.is_asked();
        (self.fill_all(seat, jobs), is_asked)
    }
}

// Asks in one thread, and takes jobs in another.
fn ask_beside<S: Source + Send + Sync, L: Ledger + Send + Sync, R: Threads + Wait + Sync>(
    rt: &R,
    alloc: Global,
    pool: &Pool<S, L>,
    lists: &mut Seats<S, L>,
) -> Option<bool>
    requires fills { All (IsFillSeatOf pool.now) lists.old.fills.items }
    requires conns { All (IsConnSeatOf pool.now) lists.old.conns.items }
    requires groups { 0 < S.count (source_of pool.now) }
    ensures fills { All (IsFillSeatOf pool.now) lists.new.fills.items }
    ensures conns { All (IsConnSeatOf pool.now) lists.new.conns.items }
{
    let asked = AtomicBool::new(false);
    let asked = &asked;
    let fill = pop_seat(pool, &mut lists.fills)?;
    let conn = pop_seat(pool, &mut lists.conns)?;
    let ((fill, is_asked), conn) = thread::join(
        rt,
        move || -> (FillSeat<S, L>, bool)
            requires { IsFillSeatOf pool.now fill }
            ensures { IsFillSeatOf pool.entry.now result.0 }
        {
            let taken = Taken {
                rt,
                alloc,
                pool,
                asked,
            };
            taken.take_and_fill(fill)
        },
        move || -> ConnSeat<S, L>
            requires conn { IsConnSeatOf pool.now conn }
            requires groups { 0 < S.count (source_of pool.now) }
            ensures { IsConnSeatOf pool.entry.now result }
        {
            let taken = Taken {
                rt,
                alloc,
                pool,
                asked,
            };
            taken.ask_all(conn)
        },
    );
    push_seat(pool, &mut lists.fills, fill)?;
    push_seat(pool, &mut lists.conns, conn)?;
    Some(is_asked)
}

// Whether all keys are asked for while no job is filled, and the report.
fn seen_over<L, R>(rt: &R, alloc: Global, blank: Blank) -> Option<(bool, Report)>
where
    L: Ledger + Send + Sync,
    R: Threads + Wait + Sync,
    requires name { blank.name ≡ L.name }
    requires parts { (blank.parts ≡ L.parts) × (blank.parts ≡ 16) }
{
    let opened = open_pool::<Numbering, L>(alloc, Numbering::new(1, 0, 0), 0, 1, 1, blank);
    let Some((pool, mut lists)) = opened else {
        return None;
    };
    let is_asked = ask_beside(rt, alloc, &pool, &mut lists);
    let report = close_pool(rt, pool, lists)?;
    Some((is_asked?, report))
}

#[test]
fn who_waits_for_room_is_told_of_jobs_that_are_taken(rt: HostRuntime) {
    let seen = seen_over::<Brand, HostRuntime>(&rt, rt.alloc(), Blank::new(16));
    assert_eq!(rt; seen, Some((true, all_called(257))));
}
