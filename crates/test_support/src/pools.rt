//! A pool with the seed of tests, and how it is closed.
ghost use Rattle.std.specs.Prelude.{◌≡◌, All, IfSome};
ghost use Rattle.peer_fill.specs.Pools.{source_of, IsConnSeatOf, IsFillSeatOf};

use crate::seeds::seed;
use peer_fill::{CachePlan, Caching, Opened, Pool, Report, Seats};
use peer_source::Source;
use std::alloc::Global;
use std::sync::Wait;
use std::sync::ledger::{Blank, Ledger};

/// A pool with so many workers and connections, and one cache of so many bytes for each group. None if it was refused memory.
pub fn open_pool<S: Source, L: Ledger>(
    alloc: Global,
    source: S,
    cache_bytes: u64,
    workers: usize,
    conns: usize,
    blank: Blank,
) -> Option<(Pool<S, L>, Seats<S, L>)>
    requires name { blank.name ≡ L.name }
    requires parts { (blank.parts ≡ L.parts) × (blank.parts ≡ 16) }
    ensures source { IfSome result (λ opened. source_of opened.0 ≡ source) }
    ensures fills { IfSome result (λ opened. All (IsFillSeatOf opened.0) opened.1.fills.items) }
    ensures conns { IfSome result (λ opened. All (IsConnSeatOf opened.0) opened.1.conns.items) }
{
    let caching = Caching {
        plan: CachePlan::Single(cache_bytes),
        own: &[],
        seed: seed()?,
    };
    open_pool_with(alloc, source, caching, workers, conns, blank)
}

/// The same with these caches.
pub fn open_pool_with<S: Source, L: Ledger>(
    alloc: Global,
    source: S,
    caching: Caching<'_>,
    workers: usize,
    conns: usize,
    blank: Blank,
) -> Option<(Pool<S, L>, Seats<S, L>)>
    requires name { blank.name ≡ L.name }
    requires parts { (blank.parts ≡ L.parts) × (blank.parts ≡ 16) }
    ensures source { IfSome result (λ opened. source_of opened.0 ≡ source) }
    ensures fills { IfSome result (λ opened. All (IsFillSeatOf opened.0) opened.1.fills.items) }
    ensures conns { IfSome result (λ opened. All (IsConnSeatOf opened.0) opened.1.conns.items) }
{
    match Pool::<S, L>::open_with(alloc, source, caching, workers, conns, blank) {
        Ok(Opened { pool, fills, conns }) => Some((pool, Seats { fills, conns })),
        Err(_) => None,
    }
}

/// The report of a pool that is closed. None where seats are missing.
pub fn close_pool<S: Source, L: Ledger, R: Wait>(
    rt: &R,
    pool: Pool<S, L>,
    seats: Seats<S, L>,
) -> Option<Report>
    requires fills { All (IsFillSeatOf pool) seats.fills.items }
    requires conns { All (IsConnSeatOf pool) seats.conns.items }
{
    let Seats { fills, conns } = seats;
    match pool.close(rt, fills, conns) {
        Ok(report) => Some(report),
        Err(_) => None,
    }
}
