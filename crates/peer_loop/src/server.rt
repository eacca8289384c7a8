//! The peer server on event loops.
ghost use Rattle.std.specs.Prelude.{◌≡◌, All, IfSome};
ghost use Rattle.peer_fill.specs.Pools.{source_of, IsConnSeatOf, IsFillSeatOf};
ghost use Rattle.peer_fill.specs.Seats.{HaveAllConns, HaveAllFills};
ghost use Rattle.peer_fetch.specs.Threads.{Allows};
ghost use Rattle.peer_known.specs.Names.{IsNamed};
ghost use Rattle.peer_fill.specs.Lists.{AreSeatsOf, Balances, ComeBack};
ghost use Rattle.peer_loop.specs.Reports.{ServesWith};
ghost use Rattle.peer_loop.specs.Serving.{fill_seats};

use crate::acceptor::Acceptor;
use crate::opening::{ServerParts, open_parts};
use crate::settings::{Orders, Settings};
use crate::threads::use_threads;
use peer_fetch::FetchPlan;
use peer_fill::{MAX_SEATS, OpenFault, Opened, Pool, Report, Seats};
use peer_known::{Known, Relation};
use peer_origin::Wires;
use peer_runtime::Host;
use peer_site::Site;
use peer_source::Source;
use std::alloc::Global;
use std::marker::Brand;
use std::net::{Net, TcpListener, TcpStream};
use std::sync::Wait;
use std::sync::ledger::{Blank, Ledger};
use std::thread::Threads;
use std::time::Clock;
use thiserror::Error;

/// Why a server ended without a report.
#[derive(Debug, Drop, Error)]
pub enum ServerFault {
    /// The pool could not be opened.
    #[error("no pool: {0}")]
    Open(OpenFault),
    /// Memory, a thread or a descriptor was refused, or the stop is another server's. No connection was accepted.
    #[error("out of memory, threads or descriptors")]
    Refused,
}

// Serves over a pool that was opened, with what the system gave. None where memory or a thread was refused.
fn serve_parts<S: Source + Send + Sync, L: Ledger + Send + Sync, H: Host + Wires>(
    rt: &H,
    alloc: Global,
    pool: &Pool<S, L>,
    seats: Seats<S, L>,
    parts: ServerParts<'_>,
    settings: &Settings<'_>,
) -> Option<Seats<S, L>>
    requires of { AreSeatsOf pool.now seats }
    requires allows { IfSome parts.threads.fillers.plan (Allows H.carried (S.answers (source_of pool.now))) }
    ensures { IfSome result (ComeBack pool.now seats) }
{
    let ServerParts {
        threads,
        shared,
        listening,
    } = parts;
    let site = Site {
        mailboxes: &shared.mailboxes,
        wakers: &shared.wakers,
        occupancy: &shared.occupancy,
        limits: &settings.limits,
        counters: settings.counters,
        records: settings.records,
    };
    let acceptor = Acceptor {
        listening,
        site,
        stop: settings.stop,
        left: settings.accepts,
    };
    use_threads(rt, alloc, pool, seats, threads, acceptor)
}

// Serves over a pool that was opened. None where memory, a thread or a descriptor was refused, or where the stop is another
// server's.
fn serve_seats<S: Source + Send + Sync, L: Ledger + Send + Sync, H: Host + Wires>(
    rt: &H,
    alloc: Global,
    pool: &Pool<S, L>,
    seats: Seats<S, L>,
    listener: TcpListener,
    orders: Orders<'_>,
) -> Option<Seats<S, L>>
    requires of { AreSeatsOf pool.now seats }
    requires allows { IfSome orders.plan (Allows H.carried (S.answers (source_of pool.now))) }
    ensures { IfSome result (ComeBack pool.now seats) }
{
    let settings = orders.settings;
    let parts = open_parts(rt, alloc, listener, orders)?;
    serve_parts(rt, alloc, pool, seats, parts, settings)
}

// Serves over a pool that was opened, and closes it.
fn serve_opened<S: Source + Send + Sync, L: Ledger + Send + Sync, H: Host + Wires>(
    rt: &H,
    alloc: Global,
    opened: Opened<S, L>,
    listener: TcpListener,
    orders: Orders<'_>,
) -> Option<Report>
    requires fills { All (IsFillSeatOf opened.pool) opened.fills.items }
    requires conns { All (IsConnSeatOf opened.pool) opened.conns.items }
    requires all_fills { HaveAllFills opened.fills.items }
    requires all_conns { HaveAllConns opened.conns.items }
    requires allows { IfSome orders.plan (Allows H.carried (S.answers (source_of opened.pool))) }
    ensures { IfSome result Balances }
{
    let Opened { pool, fills, conns } = opened;
    let seats = Seats { fills, conns };
    let seats = serve_seats(rt, alloc, &pool, seats, listener, orders)?;
    Some(pool.close_all(rt, seats))
}

// Opens a pool of this ledger, serves, and closes it.
fn over_pool<S: Source + Send + Sync, L: Ledger + Send + Sync, H: Host + Wires>(
    rt: &H,
    alloc: Global,
    source: S,
    listener: TcpListener,
    orders: Orders<'_>,
    blank: Blank,
) -> Result<Report, ServerFault>
    requires name { blank.name ≡ L.name }
    requires parts { (blank.parts ≡ L.parts) × (blank.parts ≡ 16) }
    requires allows { IfSome orders.plan (Allows H.carried (S.answers source)) }
    ensures { ServesWith (fill_seats orders.entry.settings.now) orders.entry.settings.now.loops (S.count source) result }
{
    let settings = orders.settings;
    let opened = match Pool::<S, L>::open_with(
        alloc,
        source,
        settings.caching,
        settings.fillers.seats(settings.loops),
        settings.loops,
        blank,
    ) {
        Ok(opened) => opened,
        Err(fault) => return Err(ServerFault::Open(fault)),
    };
    serve_opened(rt, alloc, opened, listener, orders).ok_or(ServerFault::Refused)
}

// Serves under a name of the source's answers, so that what the type of the server's source allows is what this source may answer.
fn serve_known<S: Source + Send + Sync, W: Relation + Send + Sync, H: Host + Wires>(
    rt: &H,
    alloc: Global,
    source: S,
    listener: TcpListener,
    orders: Orders<'_>,
) -> Result<Report, ServerFault>
    requires named { IsNamed (S.answers source) W.may }
    requires allows { IfSome orders.plan (Allows H.carried (S.answers source)) }
    ensures { ServesWith (fill_seats orders.entry.settings.now) orders.entry.settings.now.loops (S.count source) result }
{
    let known = Known::<S, W>::new(source);
    over_pool::<Known<S, W>, Brand, H>(rt, alloc, known, listener, orders, Blank::new(MAX_SEATS))
}

/// Serves the listener's clients until so many connections as the settings say were accepted and have ended, or until it
/// was told to stop, and gives the pool's report. Once it accepts no more it lets go of the listener, and then waits for the
/// clients that it has. Where there is a plan, threads that fill fetch the values of its groups, each with hundreds under
/// way. They call the source for all others, and so do loops that fill, for all groups. What its clients get are answers that this
/// very source may give: it is served under a name of these (`Known`).
pub fn serve_fetching<S: Source + Send + Sync, H: Host + Wires>(
    rt: &H,
    alloc: Global,
    source: S,
    listener: TcpListener,
    settings: &Settings<'_>,
    plan: Option<FetchPlan<'_>>,
) -> Result<Report, ServerFault>
    requires allows { IfSome plan (Allows H.carried (S.answers source)) }
    ensures { ServesWith (fill_seats settings.now) settings.now.loops (S.count source) result }
{
    let orders = Orders { settings, plan };
    serve_known::<S, Brand, H>(rt, alloc, source, listener, orders)
}

/// The same without a plan: all values are had by calls of the source.
pub fn serve_loops<S: Source + Send + Sync, H>(
    rt: &H,
    alloc: Global,
    source: S,
    listener: TcpListener,
    settings: &Settings<'_>,
) -> Result<Report, ServerFault>
where
    H: Net<Listener = TcpListener, Stream = TcpStream> + Threads + Wait + Clock + Sync + Wires,
    ensures { ServesWith (fill_seats settings.now) settings.now.loops (S.count source) result }
{
    serve_fetching(rt, alloc, source, listener, settings, None)
}
