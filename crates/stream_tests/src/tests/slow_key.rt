//! Two connections of one pool, served at the same moment, that wait for one slow key, and how each of them can end.
ghost use Rattle.std.specs.Prelude.{◌≡◌, All};
ghost use Rattle.peer_fill.specs.Pools.{IsConnSeatOf, IsFillSeatOf, IsSeatOf};

use super::runs::{READS, whole};
use super::tellers::{Acting, TellingLater};
use peer_conn::{End, serve_connection_functional};
use peer_fill::{ConnSeat, Gate, Pool, Seat, Seats, pop_seat};
use peer_source::{DemoSource, FunctionalSource, GroupId, Source};
use peer_view::{MemReader, MemWriter};
use std::hint::spin_loop;
use std::marker::Brand;
use std::process::Abort;
use std::sync::Wait;
use std::sync::atomic::AtomicU64;
use std::sync::atomic::Ordering::SeqCst;
use std::sync::ledger::{Blank, Ledger};
use std::thread::{Threads, join};
use stream_model::{ASK_K, FOUND_K};
use test_support::{Step, open_pool};

// Counts the calls, and takes a while before each, in which those who wait fall asleep. A patient one waits before that until both
// have asked.
#[derive(Drop)]
struct Slow {
    asked: [Step; 2],
    is_patient: bool,
    calls: AtomicU64,
}

impl Gate for Slow {
    fn after_take<R: Wait>(&self, _rt: &R, _group: GroupId, _key: &[u8]) {
        self.calls.fetch_add(1, SeqCst);
        if self.is_patient {
            self.asked[0].wait();
            self.asked[1].wait();
        }
        for _ in 0..1_000_000 {
            spin_loop();
        }
    }

    fn after_put<R: Wait>(&self, _rt: &R, _number: u64, _group: GroupId, _key: &[u8]) {}
}

// What a connection reads, and how its reader and its writer fail; what it writes then, and how it ends.
#[derive(Clone, Copy)]
struct Case {
    text: &'static [u8],
    // Whether the read behind the text fails, and whether it is not made.
    fails: bool,
    spent: bool,
    // How many bytes the writer takes.
    limit: Option<usize>,
    // Whether the worker waits until both read on behind their request.
    is_patient: bool,
    told: &'static [u8],
    end: End,
}

// A request that is answered, and the end is told behind it.
const ANSWERED: Case = Case {
    text: ASK_K,
    fails: false,
    spent: false,
    limit: None,
    is_patient: true,
    told: FOUND_K,
    end: End::Clean,
};

// Whether a connection writes what it is to, and ends so. It tells once it reads on behind its request.
fn is_as_told<S: FunctionalSource + Send + Sync, L: Ledger + Send + Sync>(
    rt: &(impl Abort + AllocGlobal + Threads + Wait + Sync),
    pool: &Pool<S, L>,
    seat: ConnSeat<S, L>,
    asked: &Step,
    case: Case,
) -> bool
    requires { IsConnSeatOf pool.now seat }
{
    let alloc = rt.alloc();
    let reader = Acting {
        device: MemReader::new(whole(rt, case.text), case.fails),
        before: TellingLater {
            calls: AtomicU64::new(0),
            step: asked,
        },
    };
    let writer = MemWriter::new(alloc, 4096, case.limit);
    let reads = if case.spent { 1 } else { READS };
    let (served, _seat) = serve_connection_functional(rt, alloc, pool, seat, reader, writer, reads);
    served.end == case.end && served.writer.taken() == case.told
}

// The last seat of a list.
fn take_seat<S: Source, L: Ledger, T: Seat>(
    rt: &impl Abort,
    pool: &Pool<S, L>,
    seats: &mut Vec<T>,
) -> T
    requires { All (IsSeatOf T.pass_of pool.now) seats.old.items }
    ensures seat { IsSeatOf T.pass_of pool.now result }
    ensures rest { All (IsSeatOf T.pass_of pool.now) seats.new.items }
{
    pop_seat(pool, seats).expect(rt, "a seat")
}

// Whether two connections of a pool with one worker are.
fn are_as_told<S: FunctionalSource + Send + Sync, L: Ledger + Send + Sync>(
    rt: &(impl Abort + AllocGlobal + Threads + Wait + Sync),
    pool: &Pool<S, L>,
    lists: &mut Seats<S, L>,
    gate: &Slow,
    case: Case,
) -> (bool, bool)
    requires fills { All (IsFillSeatOf pool.now) lists.old.fills.items }
    requires conns { All (IsConnSeatOf pool.now) lists.old.conns.items }
{
    let fill = take_seat(rt, pool, &mut lists.fills);
    let one = take_seat(rt, pool, &mut lists.conns);
    let two = take_seat(rt, pool, &mut lists.conns);
    let (_seat, answered) = join(
        rt,
        move ||
            requires { IsFillSeatOf pool.now fill }
        { pool.run_worker(rt, rt.alloc(), fill, gate) },
        move || -> (bool, bool)
            requires one { IsConnSeatOf pool.now one }
            requires two { IsConnSeatOf pool.now two }
        {
            let answered = join(
                rt,
                move || -> bool
                    requires { IsConnSeatOf pool.now one }
                { is_as_told(rt, pool, one, &gate.asked[0], case) },
                move || -> bool
                    requires { IsConnSeatOf pool.now two }
                { is_as_told(rt, pool, two, &gate.asked[1], case) },
            );
            pool.stop();
            answered
        },
    );
    answered
}

// The two connections of a pool of its own, and how many calls its worker made.
fn round<L: Ledger + Send + Sync, H: Abort + AllocGlobal + Threads + Wait + Sync>(
    rt: &H,
    case: Case,
    blank: Blank,
) -> ((bool, bool), u64)
    requires name { blank.name ≡ L.name }
    requires parts { (blank.parts ≡ L.parts) × (blank.parts ≡ 16) }
{
    let gate = Slow {
        asked: [Step::new(), Step::new()],
        is_patient: case.is_patient,
        calls: AtomicU64::new(0),
    };
    let opened = open_pool::<DemoSource, L>(rt.alloc(), DemoSource, 0, 1, 2, blank);
    let (pool, mut lists) = opened.expect(rt, "a pool");
    let told = are_as_told(rt, &pool, &mut lists, &gate, case);
    (told, gate.calls.load(SeqCst))
}

// How many calls the worker made, where both connections are as told.
fn ends_so<H: Abort + AllocGlobal + Threads + Wait + Sync>(rt: &H, case: Case) -> Option<u64> {
    let (told, calls) = round::<Brand, H>(rt, case, Blank::new(16));
    if told == (true, true) {
        Some(calls)
    } else {
        None
    }
}

#[test]
fn all_who_wait_for_a_slow_key_are_answered(rt: HostRuntime) {
    let mut all = true;
    for _ in 0..20 {
        all &= ends_so(&rt, ANSWERED).is_some();
    }
    assert!(rt; all);
}

#[test]
fn two_seats_wait_for_one_call(rt: HostRuntime) {
    assert_eq!(rt; ends_so(&rt, ANSWERED), Some(1));
}

// The end is told inside a head.
const CUT: Case = Case {
    text: b"GET /_groupcache/echo/k HTTP/1.1\r\nHost: h\r\n\r",
    told: b"",
    end: End::Cut,
    is_patient: false,
    ..ANSWERED
};

const READ_FAULT: Case = Case {
    fails: true,
    is_patient: false,
    end: End::ReadFault,
    ..ANSWERED
};

const SPENT: Case = Case {
    spent: true,
    is_patient: false,
    end: End::Spent,
    ..ANSWERED
};

const WRITE_FAULT: Case = Case {
    limit: Some(10),
    is_patient: false,
    told: b"HTTP/1.1 2",
    end: End::WriteFault,
    ..ANSWERED
};

// Refused memory is tried in the program `refused`, and used up numbers take 2^56 asks.
#[test]
fn each_other_end_is_told(rt: HostRuntime) {
    let ends = [
        ends_so(&rt, CUT).is_some(),
        ends_so(&rt, READ_FAULT).is_some(),
        ends_so(&rt, SPENT).is_some(),
        ends_so(&rt, WRITE_FAULT).is_some(),
    ];
    assert_eq!(rt; ends, [true; 4]);
}
