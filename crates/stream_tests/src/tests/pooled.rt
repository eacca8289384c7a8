//! Runs of a connection over a pool, whose workers are threads. They end the test where memory or a thread is refused.
ghost use Rattle.std.specs.Prelude.{◌≡◌, ◌+◌, ◌-◌, ◌^◌, ◌<◌, All};
ghost use Rattle.peer_fill.specs.Pools.{IsConnSeatOf, IsFillSeatOf};

use peer_conn::{Served, serve_connection};
use peer_fill::{ConnSeat, FillSeat, Gate, Pool, Report, Seats, pop_seat};
use peer_source::Source;
use peer_view::{PeerRead, PeerWrite};
use std::marker::Brand;
use std::process::Abort;
use std::sync::Wait;
use std::sync::ledger::{Blank, Ledger};
use std::thread;
use std::thread::Threads;
use test_support::{close_pool, open_pool, push_seat, work_all};

/// What a pool is opened with: its source, the limit of each cache in bytes, the number of its workers, and the gate
/// round their calls.
#[derive(Drop)]
pub struct Setup<'g, S: Source, G: Gate> {
    pub source: S,
    pub cache_bytes: u64,
    pub workers: usize,
    pub gate: &'g G,
}

/// The devices of a connection, and how many reads it may make.
#[derive(Drop)]
pub struct Devices<R: Drop, W: Drop> {
    pub reader: R,
    pub writer: W,
    pub reads: u64,
}

/// A connection that was served: what its seat asked for, and what its pool counted.
#[derive(Drop)]
pub struct Pooled<R, W> {
    pub served: Served<R, W>,
    pub asked: u64,
    pub report: Report,
}

// Serves a connection with this seat, and has the workers of its pool end.
fn serve_and_stop<
    S: Source + Send + Sync,
    L: Ledger + Send + Sync,
    R: PeerRead + Send + Drop,
    W: PeerWrite + Drop,
>(
    rt: &(impl AllocGlobal + Threads + Wait + Sync),
    pool: &Pool<S, L>,
    conn: ConnSeat<S, L>,
    devices: Devices<R, W>,
) -> (Served<R, W>, ConnSeat<S, L>)
    requires conn { IsConnSeatOf pool.now conn }
    requires calls { R.calls devices.reader + devices.reads < 2 ^ 64 }
    requires failures { W.failures devices.writer < 2 ^ 64 - 1 }
    ensures { IsConnSeatOf pool.now result.1 }
{
    let Devices {
        reader,
        writer,
        reads,
    } = devices;
    let served = serve_connection(rt, rt.alloc(), pool, conn, reader, writer, reads);
    pool.stop();
    served
}

// The same with the seats of these lists, while each worker works in a thread of its own. The number is how often the
// connection asked.
fn use_lists<
    S: Source + Send + Sync,
    L: Ledger + Send + Sync,
    R: PeerRead + Send + Drop,
    W: PeerWrite + Drop,
>(
    rt: &(impl Abort + AllocGlobal + Threads + Wait + Sync),
    pool: &Pool<S, L>,
    lists: Seats<S, L>,
    gate: &(impl Gate + Sync),
    devices: Devices<R, W>,
) -> (Seats<S, L>, Served<R, W>, u64)
    requires fills { All (IsFillSeatOf pool.now) lists.fills.items }
    requires conns { All (IsConnSeatOf pool.now) lists.conns.items }
    requires calls { R.calls devices.reader + devices.reads < 2 ^ 64 }
    requires failures { W.failures devices.writer < 2 ^ 64 - 1 }
    ensures fills { All (IsFillSeatOf pool.now) result.0.fills.items }
    ensures conns { All (IsConnSeatOf pool.now) result.0.conns.items }
{
    let Seats { fills, mut conns } = lists;
    let conn = pop_seat(pool, &mut conns).expect(rt, "a seat");
    let (fills, (served, conn)) = thread::join(
        rt,
        move || -> Vec<FillSeat<S, L>>
            requires { All (IsFillSeatOf pool.now) fills.items }
            ensures { All (IsFillSeatOf pool.entry.now) result.items }
        { work_all(rt, rt.alloc(), pool, fills, gate).expect(rt, "memory") },
        move || -> (Served<R, W>, ConnSeat<S, L>)
            requires conn { IsConnSeatOf pool.now conn }
            requires calls { R.calls devices.reader + devices.reads < 2 ^ 64 }
            requires failures { W.failures devices.writer < 2 ^ 64 - 1 }
            ensures { IsConnSeatOf pool.entry.now result.1 }
        { serve_and_stop(rt, pool, conn, devices) },
    );
    let asked = conn.asked();
    push_seat(pool, &mut conns, conn).expect(rt, "memory");
    (Seats { fills, conns }, served, asked)
}

// Opens a pool with one connection, serves it and closes the pool.
fn serve_over<
    S: Source + Send + Sync,
    L: Ledger + Send + Sync,
    R: PeerRead + Send + Drop,
    W: PeerWrite + Drop,
    G: Gate + Sync,
    H: Abort + AllocGlobal + Threads + Wait + Sync,
>(rt: &H, setup: Setup<'_, S, G>, devices: Devices<R, W>, blank: Blank) -> Pooled<R, W>
    requires name { blank.name ≡ L.name }
    requires parts { (blank.parts ≡ L.parts) × (blank.parts ≡ 16) }
    requires calls { R.calls devices.reader + devices.reads < 2 ^ 64 }
    requires failures { W.failures devices.writer < 2 ^ 64 - 1 }
{
    let Setup {
        source,
        cache_bytes,
        workers,
        gate,
    } = setup;
    let opened = open_pool::<S, L>(rt.alloc(), source, cache_bytes, workers, 1, blank);
    let (pool, lists) = opened.expect(rt, "a pool");
    let (lists, served, asked) = use_lists(rt, &pool, lists, gate, devices);
    let report = close_pool(rt, pool, lists).expect(rt, "a report");
    Pooled {
        served,
        asked,
        report,
    }
}

/// A connection over a pool of its own.
pub fn serve_pooled<
    S: Source + Send + Sync,
    R: PeerRead + Send + Drop,
    W: PeerWrite + Drop,
    G: Gate + Sync,
    H: Abort + AllocGlobal + Threads + Wait + Sync,
>(rt: &H, setup: Setup<'_, S, G>, devices: Devices<R, W>) -> Pooled<R, W>
    requires calls { R.calls devices.reader + devices.reads < 2 ^ 64 }
    requires failures { W.failures devices.writer < 2 ^ 64 - 1 }
{
    serve_over::<S, Brand, R, W, G, H>(rt, setup, devices, Blank::new(16))
}
