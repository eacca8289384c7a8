//! Pools in use by many threads: each worker and each connection has one of its own.
ghost use Rattle.std.specs.Prelude.{◌≡◌, ◌<◌, All, IfSome};
ghost use Rattle.peer_fill.specs.Pools.{source_of, IsConnSeatOf, IsFillSeatOf};

use super::numbering::Numbering;
use crate::tests::values::{ECHO, value_of};
use peer_fill::{ConnSeat, FillSeat, Gate, Pool, Report, Seats};
use peer_flight::Claim;
use peer_source::{GroupId, Source};
use std::alloc::Global;
use std::hint::spin_loop;
use std::marker::Brand;
use std::sync::Wait;
use std::sync::ledger::{Blank, Ledger};
use std::thread;
use std::thread::Threads;
use test_support::{all_called, ask_in, close_pool, open_pool, work_all};

// Takes a while, in which a thread that waits falls asleep.
pub(super) fn take_a_while() {
    for _ in 0..400_000 {
        spin_loop();
    }
}

// At which keys a worker is held back before its call.
#[derive(Clone, Copy)]
enum Slow {
    Never,
    // At each key that ends with 0, so that the queue of jobs runs full and a connection sleeps.
    AtZero,
    // So that all connections that want a key sleep.
    Always,
}

impl Gate for Slow {
    fn after_take<R: Wait>(&self, _rt: &R, _group: GroupId, key: &[u8]) {
        let is_slow = match self {
            Slow::Never => false,
            Slow::AtZero => key.last() == Some(&0),
            Slow::Always => true,
        };
        if is_slow {
            take_a_while();
        }
    }

    fn after_put<R: Wait>(&self, _rt: &R, _number: u64, _group: GroupId, _key: &[u8]) {}
}

// A pool's threads, what its connections ask for, and what holds its workers back.
#[derive(Clone, Copy)]
struct Setting {
    workers: usize,
    conns: usize,
    // In each round a connection asks for so many keys of two bytes, and then it waits for all of them.
    rounds: u16,
    keys: u16,
    slow: Slow,
    // Each call of the source waits until so many were made.
    together: u64,
}

// One worker, and one connection that asks for one key.
const ALONE: Setting = Setting {
    workers: 1,
    conns: 1,
    rounds: 1,
    keys: 1,
    slow: Slow::Never,
    together: 0,
};

impl Setting {
    // The same with so many workers and connections.
    const fn with_threads(self, workers: usize, conns: usize) -> Setting {
        Setting {
            workers,
            conns,
            ..self
        }
    }

    // The same with so many rounds, each of so many keys.
    const fn with_keys(self, rounds: u16, keys: u16) -> Setting {
        Setting {
            rounds,
            keys,
            ..self
        }
    }

    // The same with workers that are held back.
    const fn with_slow(self, slow: Slow) -> Setting {
        Setting { slow, ..self }
    }
}

// A pool whose connections ask.
#[derive(Drop)]
struct Asked<'p, S: Source, L: Ledger, R> {
    rt: &'p R,
    alloc: Global,
    pool: &'p Pool<S, L>,
}

impl<'p, S: Source, L: Ledger, R: Wait> Asked<'p, S, L, R> {
    // Claims on the echo of these keys of two bytes.
    fn ask_each(&self, seat: &mut ConnSeat<S, L>, from: u16, to: u16) -> Option<Vec<Claim<S>>>
        requires seat { IsConnSeatOf self.now.pool.now seat.old }
        requires groups { 0 < S.count (source_of self.now.pool.now) }
        ensures { IsConnSeatOf self.now.pool.now seat.new }
    {
        let mut claims = Vec::new(self.alloc);
        for number in from..to {
            let key = number.to_be_bytes();
            let claim = ask_in(self.rt, self.alloc, self.pool, seat, ECHO, &key)?;
            claims.push(claim).ok()?;
        }
        Some(claims)
    }

    // How many of the claims do not show their key.
    fn count_wrong(&self, claims: &[Claim<S>]) -> u64 {
        let mut wrong = 0u64;
        for claim in claims {
            let fill = self.pool.wait_for(self.rt, claim);
            if !value_of(fill).starts_with(claim.key().as_slice()) {
                wrong = wrong.saturating_add(1);
            }
        }
        wrong
    }

    // Asks once the workers sleep. A claim that does not show its key counts as a stranger.
    fn use_seat(&self, seat: &mut ConnSeat<S, L>, setting: Setting)
        requires seat { IsConnSeatOf self.now.pool.now seat.old }
        requires groups { 0 < S.count (source_of self.now.pool.now) }
        ensures { IsConnSeatOf self.now.pool.now seat.new }
    {
        take_a_while();
        for round in 0..setting.rounds {
            let from = round.saturating_mul(setting.keys);
            let to = from.saturating_add(setting.keys);
            let wrong = match self.ask_each(seat, from, to) {
                Some(claims) => self.count_wrong(&claims),
                None => 1,
            };
            seat.add_strangers(wrong);
        }
    }
}

// Each connection asks in a thread of its own.
fn ask_all<S: Source + Send + Sync, L: Ledger + Send + Sync, R: Threads + Wait + Sync>(
    rt: &R,
    alloc: Global,
    pool: &Pool<S, L>,
    conns: &mut [ConnSeat<S, L>],
    setting: Setting,
)
    requires conns { All (IsConnSeatOf pool.now) conns.old }
    requires groups { 0 < S.count (source_of pool.now) }
    ensures { All (IsConnSeatOf pool.now) conns.new }
{
    let ask = |_: usize, seat: &mut ConnSeat<S, L>|
        requires seat { IsConnSeatOf pool.now seat.now }
        requires groups { 0 < S.count (source_of pool.now) }
        ensures { IsConnSeatOf pool.entry.now seat.exit.now }
    { Asked { rt, alloc, pool }.use_seat(seat, setting) };
    thread::for_each_mut(rt, conns, 16, &ask);
}

// Each worker works in a thread of its own while the connections ask.
fn use_every<S: Source + Send + Sync, L: Ledger + Send + Sync, R: Threads + Wait + Sync>(
    rt: &R,
    alloc: Global,
    pool: &Pool<S, L>,
    lists: Seats<S, L>,
    setting: Setting,
) -> Option<Seats<S, L>>
    requires fills { All (IsFillSeatOf pool.now) lists.fills.items }
    requires conns { All (IsConnSeatOf pool.now) lists.conns.items }
    requires groups { 0 < S.count (source_of pool.now) }
    ensures fills { IfSome result (λ used. All (IsFillSeatOf pool.now) used.fills.items) }
    ensures conns { IfSome result (λ used. All (IsConnSeatOf pool.now) used.conns.items) }
{
    let Seats { fills, mut conns } = lists;
    let (fills, conns) = thread::join(
        rt,
        move || -> Option<Vec<FillSeat<S, L>>>
            requires { All (IsFillSeatOf pool.now) fills.items }
            ensures { IfSome result (λ seats. All (IsFillSeatOf pool.entry.now) seats.items) }
        { work_all(rt, alloc, pool, fills, &setting.slow).ok() },
        move || -> Vec<ConnSeat<S, L>>
            requires conns { All (IsConnSeatOf pool.now) conns.items }
            requires groups { 0 < S.count (source_of pool.now) }
            ensures { All (IsConnSeatOf pool.entry.now) result.items }
        {
            ask_all(rt, alloc, pool, conns.as_mut_slice(), setting);
            pool.stop();
            conns
        },
    );
    Some(Seats {
        fills: fills?,
        conns,
    })
}

// The report of a pool whose workers and connections each have a thread.
fn report_over<L, R>(rt: &R, alloc: Global, setting: Setting, blank: Blank) -> Option<Report>
where
    L: Ledger + Send + Sync,
    R: Threads + Wait + Sync,
    requires name { blank.name ≡ L.name }
    requires parts { (blank.parts ≡ L.parts) × (blank.parts ≡ 16) }
{
    let source = Numbering::new(1, 0, setting.together);
    let opened = open_pool::<Numbering, L>(alloc, source, 0, setting.workers, setting.conns, blank);
    let Some((pool, lists)) = opened else {
        return None;
    };
    let Some(lists) = use_every(rt, alloc, &pool, lists, setting) else {
        return None;
    };
    close_pool(rt, pool, lists)
}

// The same with a ledger of its own.
fn report_of<R: Threads + Wait + Sync>(rt: &R, alloc: Global, setting: Setting) -> Option<Report> {
    report_over::<Brand, R>(rt, alloc, setting, Blank::new(16))
}

// No worker makes as many fills as tell of room: who waits for it is told that the queue is empty.
#[test]
fn sixteen_workers_fill_three_hundred_keys(rt: HostRuntime) {
    let setting = ALONE.with_threads(16, 1).with_keys(1, 300);
    let report = report_of(&rt, rt.alloc(), setting.with_slow(Slow::Always));
    assert_eq!(rt; report, Some(all_called(300)));
}

// What is the same in every run: the asks, the strangers and what is left, and whether each flight was called for.
fn same_each_run<R: Threads + Wait + Sync>(
    rt: &R,
    alloc: Global,
    setting: Setting,
) -> Option<(u64, u64, u64, bool)> {
    let report = report_of(rt, alloc, setting)?;
    let all_called = report.led == report.calls;
    Some((report.asked, report.strangers, report.left, all_called))
}

#[test]
fn each_number_of_workers_serves_its_connections(rt: HostRuntime) {
    let many = ALONE.with_threads(16, 16).with_keys(1, 250);
    let seen = same_each_run(&rt, rt.alloc(), many);
    assert_eq!(rt; seen, Some((4000, 0, 0, true)));
    let one = ALONE.with_keys(1, 300).with_slow(Slow::AtZero);
    let seen = same_each_run(&rt, rt.alloc(), one);
    assert_eq!(rt; seen, Some((300, 0, 0, true)));
}

#[test]
fn all_that_wait_for_a_fill_are_woken(rt: HostRuntime) {
    let setting = ALONE.with_threads(1, 16).with_keys(20, 1);
    let seen = same_each_run(&rt, rt.alloc(), setting.with_slow(Slow::Always));
    assert_eq!(rt; seen, Some((320, 0, 0, true)));
}

#[test]
fn no_lock_is_held_while_the_source_is_called(rt: HostRuntime) {
    let setting = Setting {
        together: 2,
        ..ALONE.with_threads(2, 1).with_keys(1, 2)
    };
    let seen = same_each_run(&rt, rt.alloc(), setting);
    assert_eq!(rt; seen, Some((2, 0, 0, true)));
}
