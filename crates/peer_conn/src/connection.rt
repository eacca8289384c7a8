//! A connection whose reader and writer run in threads of their own.
//!
//! It stands on the sides of a connection and the lane between them. It promises that what is written is the replies to
//! what was read, as the end says, and what the seat counted.
ghost use Rattle.std.specs.Prelude.{ℕ, ◌+◌, ◌-◌, ◌^◌, ◌<◌};
ghost use Rattle.peer_fill.specs.Claiming.{KeepsSeat};
ghost use Rattle.peer_fill.specs.Pools.{source_of, IsConnSeatOf};
ghost use Rattle.peer_fill.specs.Seats.{asks_of};
ghost use Rattle.peer_wish.specs.Allowed.{only, allows};
ghost use Rattle.peer_conn.specs.Calls.{CallConnects, CallWrites};
ghost use Rattle.peer_conn.specs.Sides.{AreNewSides, ServesSides};
ghost use Rattle.peer_conn.specs.ReaderSides.{TakesRequests};
ghost use Rattle.peer_conn.specs.WriterSides.{AnswersTickets};
ghost use Rattle.peer_conn.specs.Strangers.{CountsFew};

use crate::end::{Served, end_of};
use crate::halves::{LinkedHalves, new_linked_halves};
use crate::reader_side::{ReaderSide, StoppedReader};
use crate::writer_side::WriterSide;
use peer_fill::{ConnSeat, Pool};
use peer_lane::Signal;
use peer_source::{FunctionalSource, Source};
use peer_view::{PeerRead, PeerWrite};
use std::alloc::Global;
use std::snapshot::Snapshot;
use std::sync::Wait;
use std::sync::ledger::Ledger;
use std::thread;
use std::thread::{Promise, Scope, Threads};

/// Serves one connection with at most `reads` reads. One thread reads and asks the pool ahead, and another writes, so
/// that several fills for one connection are made at the same time.
///
/// It needs a worker of the pool (`Pool::run_worker`) in another thread, until it returns: without one it waits for ever
/// for the first fill.
pub fn serve_connection<S: Source + Send + Sync, L: Ledger + Send + Sync, R, W, H>(
    rt: &H,
    alloc: Global,
    pool: &Pool<S, L>,
    seat: ConnSeat<S, L>,
    reader: R,
    writer: W,
    reads: u64,
) -> (Served<R, W>, ConnSeat<S, L>)
where
    H: Threads + Wait + Sync,
    R: PeerRead + Send + Drop,
    W: PeerWrite + Drop,
    requires seat { IsConnSeatOf pool.now seat }
    requires calls { R.calls reader + reads < 2 ^ 64 }
    requires failures { W.failures writer < 2 ^ 64 - 1 }
    ensures seat { KeepsSeat pool.now seat result.1 }
    ensures strangers { CountsFew (asks_of seat) (asks_of result.1) }
    ensures connects { CallConnects R.PeerRead W.PeerWrite reader writer result.0 (S.number_of (source_of pool.now))
        (allows S.allowed) reads seat result.1 }
    ensures writes_replies { CallWrites R.PeerRead W.PeerWrite reader writer result.0 (S.number_of (source_of pool.now))
        (allows S.allowed) }
{
    let LinkedHalves { halves, put, taken } = match new_linked_halves(
        alloc, reader, writer, reads,
    ) {
        Ok(linked) => linked,
        Err(served) => return (served, seat),
    };
    let reader = ReaderSide {
        seat,
        lane: put,
        requests: halves.requests,
    };
    let writer = WriterSide::new(alloc, taken, halves.responses);
    serve_sides(rt, pool, reader, writer)
}

/// `serve_connection`, whose replies are those of the one answer for each group and key: what is written is a prefix of
/// the replies to what was read, whatever other connections, workers and schedules do.
pub fn serve_connection_functional<
    S: FunctionalSource + Send + Sync,
    L: Ledger + Send + Sync,
    R,
    W,
    H,
>(
    rt: &H,
    alloc: Global,
    pool: &Pool<S, L>,
    seat: ConnSeat<S, L>,
    reader: R,
    writer: W,
    reads: u64,
) -> (Served<R, W>, ConnSeat<S, L>)
where
    H: Threads + Wait + Sync,
    R: PeerRead + Send + Drop,
    W: PeerWrite + Drop,
    requires seat { IsConnSeatOf pool.now seat }
    requires calls { R.calls reader + reads < 2 ^ 64 }
    requires failures { W.failures writer < 2 ^ 64 - 1 }
    ensures seat { KeepsSeat pool.now seat result.1 }
    ensures strangers { CountsFew (asks_of seat) (asks_of result.1) }
    ensures connects { CallConnects R.PeerRead W.PeerWrite reader writer result.0 S.the_number (only S.the_answer) reads seat result.1 }
    ensures writes_replies { CallWrites R.PeerRead W.PeerWrite reader writer result.0 S.the_number (only S.the_answer) }
{
    serve_connection(rt, alloc, pool, seat, reader, writer, reads)
}

// Serves, where nothing was read, put or written yet.
fn serve_sides<S: Source + Send + Sync, L: Ledger + Send + Sync, R, W, H: Threads + Wait + Sync>(
    rt: &H,
    pool: &Pool<S, L>,
    reader: ReaderSide<S, L, R>,
    writer: WriterSide<S, W>,
) -> (Served<R, W>, ConnSeat<S, L>)
where
    R: PeerRead + Send + Drop,
    W: PeerWrite + Drop,
    requires seat { IsConnSeatOf pool.now reader.seat }
    requires sides { AreNewSides reader writer }
    ensures seat { KeepsSeat pool.now reader.seat result.1 }
    ensures strangers { CountsFew (asks_of reader.seat) (asks_of result.1) }
    ensures serves { ServesSides (S.number_of (source_of pool.now)) (allows S.allowed) reader writer result.0 (asks_of result.1).asked }
{
    let signal = Signal::new();
    let (read, mut writer) = run_sides(rt, pool, &signal, reader, writer);
    let StoppedReader { side, stop } = read;
    let ReaderSide {
        mut seat,
        mut lane,
        requests,
    } = side;
    writer.write_left(rt, pool, &mut lane);
    seat.add_strangers(writer.strangers);
    let WriterSide { responses, .. } = writer;
    let served = Served {
        reader: requests.reader,
        end: end_of(responses.state, stop),
        writer: responses.out.writer,
    };
    (served, seat)
}

// The promise of the reader's thread.
#[derive(Drop)]
struct ReaderPromise<'a, S: Source, L: Ledger, R: PeerRead + Drop> {
    pool: &'a Pool<S, L>,
    side: Snapshot<ReaderSide<S, L, R>>,
}

impl<'a, S: Source, L: Ledger, R: PeerRead + Drop> Promise<StoppedReader<S, L, R>>
    for ReaderPromise<'a, S, L, R> {
    ghost kept_by = { λ p r. TakesRequests (S.number_of (source_of p.pool.now)) p.pool.now p.side.value r.side r.stop };
}

// Reads until the reader stops, and tells the writer that nothing more comes.
fn read_side<S: Source, L: Ledger, R: PeerRead + Drop, H: Wait>(
    rt: &H,
    pool: &Pool<S, L>,
    signal: &Signal,
    reader: ReaderSide<S, L, R>,
) -> StoppedReader<S, L, R>
    requires { IsConnSeatOf pool.now reader.seat }
    ensures { TakesRequests (S.number_of (source_of pool.now)) pool.now reader result.side result.stop }
{
    let mut side = reader;
    let stop = side.take_requests(rt, pool, &pool.names(), signal);
    signal.finish();
    StoppedReader { side, stop }
}

// Reads in a thread of its own and writes in this one. Where no thread can be had, the reader is stopped before its first
// read.
fn run_within<'s, E, S: Source + Send + Sync, L: Ledger + Send + Sync, R, W, H>(
    scope: &Scope<'s, E>,
    rt: &'s H,
    pool: &'s Pool<S, L>,
    signal: &'s Signal,
    reader: ReaderSide<S, L, R>,
    mut writer: WriterSide<S, W>,
) -> (StoppedReader<S, L, R>, WriterSide<S, W>)
where
    H: Threads + Wait + Sync,
    R: PeerRead + Send + Drop + 's,
    W: PeerWrite + Drop,
    requires { IsConnSeatOf pool.now reader.seat }
    ensures read { TakesRequests (S.number_of (source_of pool.now)) pool.now reader result.0.side result.0.stop }
    ensures wrote { AnswersTickets (allows S.allowed) writer result.1 }
{
    let promise = ReaderPromise {
        pool,
        side: Snapshot::of(&reader),
    };
    let read = move || -> StoppedReader<S, L, R>
        requires { IsConnSeatOf pool.now reader.seat }
        ensures { TakesRequests (S.number_of (source_of pool.entry.now)) pool.entry.now reader result.side result.stop }
    { read_side(rt, pool, signal, reader) };
    match scope.spawn_with(promise, read) {
        Ok(child) => {
            writer.run(rt, pool, signal);
            (child.join(rt), writer)
        }
        Err(refused) => {
            signal.stop();
            let read = (refused.value)();
            writer.run(rt, pool, signal);
            (read, writer)
        }
    }
}

// The same, in a scope of its own.
fn run_sides<S: Source + Send + Sync, L: Ledger + Send + Sync, R, W, H: Threads + Wait + Sync>(
    rt: &H,
    pool: &Pool<S, L>,
    signal: &Signal,
    reader: ReaderSide<S, L, R>,
    writer: WriterSide<S, W>,
) -> (StoppedReader<S, L, R>, WriterSide<S, W>)
where
    R: PeerRead + Send + Drop,
    W: PeerWrite + Drop,
    requires { IsConnSeatOf pool.now reader.seat }
    ensures read { TakesRequests (S.number_of (source_of pool.now)) pool.now reader result.0.side result.0.stop }
    ensures wrote { AnswersTickets (allows S.allowed) writer result.1 }
{
    thread::scope(
        thread::scope_env(),
        rt,
        move |scope| -> (StoppedReader<S, L, R>, WriterSide<S, W>)
            requires { IsConnSeatOf pool.now reader.seat }
            ensures read { TakesRequests (S.number_of (source_of pool.entry.now)) pool.entry.now reader result.0.side result.0.stop }
            ensures wrote { AnswersTickets (allows S.allowed) writer result.1 }
        { run_within(scope, rt, pool, signal, reader, writer) },
    )
}
