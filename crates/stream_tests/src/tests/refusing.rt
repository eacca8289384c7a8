//! A source that is refused memory once: its connection ends there, and the pool fills the same key for who asks again.
ghost use Rattle.std.specs.Prelude.{◌≡◌, All};
ghost use Rattle.peer_fill.specs.Pools.{IsConnSeatOf, IsFillSeatOf};

use super::ends::{THREE, THREE_REPLIES};
use super::runs::{READS, whole};
use super::tellers::{Acting, TellingLater};
use peer_conn::{End, serve_connection};
use peer_fill::{ConnSeat, Pool, Report, Seats, pop_seat};
use peer_flight::Claim;
use peer_source::{Fill, Outcome, Source};
use peer_view::{MemReader, MemWriter};
use std::alloc::Global;
use std::marker::Brand;
use std::process::Abort;
use std::sync::Wait;
use std::sync::atomic::AtomicU64;
use std::sync::ledger::{Blank, Ledger};
use std::thread::Threads;
use test_support::{
    Hook, Hooked, Refusing, Step, all_called, ask_for, beside_worker, close_pool, do_jobs,
    open_pool, push_seat,
};

// Refuses memory once, and holds each call back until all was asked for.
#[derive(Drop)]
struct Held<'a> {
    asked: &'a Step,
    refusing: Refusing,
}

impl<'a> Hook for Held<'a> {
    fn may_call(&self, alloc: Global, key: &[u8]) -> bool {
        self.asked.wait();
        self.refusing.may_call(alloc, key)
    }
}

// One connection of `a`, `b` and `c` in one piece, of which `b` is refused memory: whether it wrote the first reply, and
// whether it ended so. It tells once it has asked for all, and reads again.
fn serve_one<S: Source + Send + Sync, L: Ledger + Send + Sync>(
    rt: &(impl Abort + AllocGlobal + Threads + Wait + Sync),
    pool: &Pool<S, L>,
    conn: ConnSeat<S, L>,
    asked: &Step,
) -> (ConnSeat<S, L>, [bool; 2])
    requires { IsConnSeatOf pool.now conn }
    ensures { IsConnSeatOf pool.now result.0 }
{
    let reader = Acting {
        device: MemReader::new(whole(rt, THREE), false),
        before: TellingLater {
            calls: AtomicU64::new(0),
            step: asked,
        },
    };
    let writer = MemWriter::new(rt.alloc(), 4096, None);
    let (served, conn) = serve_connection(rt, rt.alloc(), pool, conn, reader, writer, READS);
    let (reply, _) = THREE_REPLIES.as_slice().split_at(79);
    let told = [served.writer.taken() == reply, served.end == End::Memory];
    (conn, told)
}

// Whether a claim is there, and its fill found this value.
fn shows<S: Source>(claim: &Option<Claim<S>>, value: &[u8]) -> bool {
    let Some(claim) = claim else {
        return false;
    };
    let mut note = claim.note();
    match claim.look(&mut note) {
        Some(fill) => finds(fill, value),
        None => false,
    }
}

// Whether a fill found this value.
fn finds<S: Source>(fill: &Fill<S>, value: &[u8]) -> bool {
    match fill.outcome() {
        Outcome::Found(found) => found.as_slice() == value,
        Outcome::Failed(_) | Outcome::NoMemory => false,
    }
}

// The same beside one worker, with seats from these lists. Then the seat asks for `b` and the worker runs again: whether
// the claim shows the key.
fn serve_and_ask<S: Source + Send + Sync, L: Ledger + Send + Sync>(
    rt: &(impl Abort + AllocGlobal + Threads + Wait + Sync),
    pool: &Pool<S, L>,
    lists: &mut Seats<S, L>,
    asked: &Step,
) -> ([bool; 2], bool)
    requires fills { All (IsFillSeatOf pool.now) lists.old.fills.items }
    requires conns { All (IsConnSeatOf pool.now) lists.old.conns.items }
    ensures fills { All (IsFillSeatOf pool.now) lists.new.fills.items }
    ensures conns { All (IsConnSeatOf pool.now) lists.new.conns.items }
{
    let alloc = rt.alloc();
    let fill = pop_seat(pool, &mut lists.fills).expect(rt, "a worker");
    let conn = pop_seat(pool, &mut lists.conns).expect(rt, "a seat");
    let serve = move || -> (ConnSeat<S, L>, [bool; 2])
        requires { IsConnSeatOf pool.now conn }
        ensures { IsConnSeatOf pool.entry.now result.0 }
    { serve_one(rt, pool, conn, asked) };
    let (fill, served) = beside_worker(rt, alloc, pool, fill, serve).expect(rt, "a thread");
    let (mut conn, told) = served;
    push_seat(pool, &mut lists.fills, fill).expect(rt, "memory");
    let claim = ask_for(rt, alloc, pool, &mut conn, b"b");
    do_jobs(rt, alloc, pool, &mut lists.fills).expect(rt, "a worker");
    push_seat(pool, &mut lists.conns, conn).expect(rt, "memory");
    (told, shows(&claim, b"b"))
}

// What became of the connection and of the ask behind it, over a pool of its own, with its report.
fn run<L: Ledger + Send + Sync, H: Abort + AllocGlobal + Threads + Wait + Sync>(
    rt: &H,
    blank: Blank,
) -> (([bool; 2], bool), Option<Report>)
    requires name { blank.name ≡ L.name }
    requires parts { (blank.parts ≡ L.parts) × (blank.parts ≡ 16) }
{
    let asked = Step::new();
    let hook = Held {
        asked: &asked,
        refusing: Refusing::new(),
    };
    let opened = open_pool::<Hooked<Held<'_>>, L>(rt.alloc(), Hooked { hook }, 0, 1, 1, blank);
    let (pool, mut lists) = opened.expect(rt, "a pool");
    let seen = serve_and_ask(rt, &pool, &mut lists, &asked);
    (seen, close_pool(rt, pool, lists))
}

#[test]
fn a_refused_key_is_filled_behind_its_worker(rt: HostRuntime) {
    let seen = run::<Brand, HostRuntime>(&rt, Blank::new(16));
    assert_eq!(rt; seen, (([true; 2], true), Some(all_called(4))));
}
