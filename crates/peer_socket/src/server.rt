//! The peer server on a socket.
ghost use Rattle.std.specs.Prelude.{◌≡◌, All, IfSome};
ghost use Rattle.peer_fill.specs.Pools.{IsConnSeatOf, IsFillSeatOf};
ghost use Rattle.peer_fill.specs.Seats.{HaveAllConns, HaveAllFills};
ghost use Rattle.peer_fill.specs.Lists.{Balances};
ghost use Rattle.peer_known.specs.Names.{IsNamed};
ghost use Rattle.peer_socket.specs.Serving.{ServesWith};

use crate::acceptor::Acceptor;
use crate::threads::use_seats;
use peer_fill::{MAX_SEATS, OpenFault, Opened, Pool, Report, Seats};
use peer_known::{Known, Relation};
use peer_runtime::{Host, Limits};
use peer_source::Source;
use std::alloc::Global;
use std::hash::RandomState;
use std::marker::Brand;
use std::net::{Net, TcpListener, TcpStream};
use std::sync::Wait;
use std::sync::ledger::{Blank, Ledger};
use std::thread::Threads;
use std::time::Clock;
use thiserror::Error;

/// Why a server ended without a report.
#[derive(Debug, Drop, Error)]
pub enum ServerFault {
    /// The pool could not be opened.
    #[error("no pool: {0}")]
    Open(OpenFault),
    /// Memory or a thread was refused. No connection was accepted.
    #[error("out of memory")]
    Memory,
}

/// How a server serves.
#[derive(Clone, Copy, Debug)]
pub struct Settings {
    /// How many threads call the source, from 1 to 16.
    pub workers: usize,
    /// How many connections are served at one moment, from 1 to 16.
    pub conns: usize,
    /// How many connections each seat serves, one after the other.
    pub rounds: u64,
    /// How many bytes of keys and values the cache of each group keeps at most.
    pub cache_bytes: u64,
    /// The seed of the caches' maps.
    pub seed: RandomState,
    /// How long clients are waited for.
    pub limits: Limits,
}

// Serves over a pool that was opened, and closes it. None where memory or a thread was refused.
fn serve_opened<S: Source + Send + Sync, L: Ledger + Send + Sync, H: Host>(
    rt: &H,
    alloc: Global,
    opened: Opened<S, L>,
    listener: &TcpListener,
    settings: &Settings,
) -> Option<Report>
    requires fills { All (IsFillSeatOf opened.pool) opened.fills.items }
    requires conns { All (IsConnSeatOf opened.pool) opened.conns.items }
    requires all_fills { HaveAllFills opened.fills.items }
    requires all_conns { HaveAllConns opened.conns.items }
    ensures { IfSome result Balances }
{
    let Opened { pool, fills, conns } = opened;
    let acceptor = Acceptor::new(
        listener,
        &settings.limits,
        settings.conns as u64,
        settings.rounds,
    );
    let seats = Seats { fills, conns };
    let seats = use_seats(rt, alloc, &pool, seats, &acceptor)?;
    Some(pool.close_all(rt, seats))
}

// Opens a pool, serves, and closes it.
fn over_pool<S: Source + Send + Sync, L: Ledger + Send + Sync, H: Host>(
    rt: &H,
    alloc: Global,
    source: S,
    listener: &TcpListener,
    settings: &Settings,
    blank: Blank,
) -> Result<Report, ServerFault>
    requires name { blank.name ≡ L.name }
    requires parts { (blank.parts ≡ L.parts) × (blank.parts ≡ 16) }
    ensures { ServesWith settings.now.workers settings.now.conns (S.count source) result }
{
    let opened = match Pool::<S, L>::open(
        alloc,
        source,
        settings.cache_bytes,
        settings.seed,
        settings.workers,
        settings.conns,
        blank,
    ) {
        Ok(opened) => opened,
        Err(fault) => return Err(ServerFault::Open(fault)),
    };
    match serve_opened(rt, alloc, opened, listener, settings) {
        Some(report) => Ok(report),
        None => Err(ServerFault::Memory),
    }
}

// Serves under a name of the source's answers, so that what the type of the server's source allows is what this source may answer.
fn serve_known<S: Source + Send + Sync, W: Relation + Send + Sync, H: Host>(
    rt: &H,
    alloc: Global,
    source: S,
    listener: &TcpListener,
    settings: &Settings,
) -> Result<Report, ServerFault>
    requires named { IsNamed (S.answers source) W.may }
    ensures { ServesWith settings.now.workers settings.now.conns (S.count source) result }
{
    let known = Known::<S, W>::new(source);
    over_pool::<Known<S, W>, Brand, H>(rt, alloc, known, listener, settings, Blank::new(MAX_SEATS))
}

/// `peer_server` with settings of one's own. What its clients get are answers that this very source may give: it is served under a
/// name of these (`Known`).
pub fn serve_within<S: Source + Send + Sync, H>(
    rt: &H,
    alloc: Global,
    source: S,
    listener: TcpListener,
    settings: &Settings,
) -> Result<Report, ServerFault>
where
    H: Net<Listener = TcpListener, Stream = TcpStream> + Threads + Wait + Clock + Sync,
    ensures { ServesWith settings.now.workers settings.now.conns (S.count source) result }
{
    serve_known::<S, Brand, H>(rt, alloc, source, &listener, settings)
}

/// Serves `rounds` connections on each of `conns` threads, with so many workers that call the source, and gives the
/// pool's report once all have ended. The cache of each group keeps at most `cache_bytes` bytes. An accept that fails, or
/// a stream that refuses its options, uses up a round.
pub fn peer_server<S: Source + Send + Sync, H>(
    rt: &H,
    alloc: Global,
    source: S,
    listener: TcpListener,
    workers: usize,
    conns: usize,
    rounds: u64,
    cache_bytes: u64,
    seed: RandomState,
) -> Result<Report, ServerFault>
where
    H: Net<Listener = TcpListener, Stream = TcpStream> + Threads + Wait + Clock + Sync,
    ensures { ServesWith workers conns (S.count source) result }
{
    let settings = Settings {
        workers,
        conns,
        rounds,
        cache_bytes,
        seed,
        limits: Limits::usual(),
    };
    serve_within(rt, alloc, source, listener, &settings)
}
