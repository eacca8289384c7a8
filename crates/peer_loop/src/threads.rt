//! The threads of a server: one for each loop, and for each seat that fills beside them, and all are joined.
ghost use Rattle.std.specs.Prelude.{◌≡◌, IfSome};
ghost use Rattle.peer_fill.specs.Pools.{source_of};
ghost use Rattle.peer_fetch.specs.Threads.{Allows};
ghost use Rattle.peer_fill.specs.Lists.{AreSeatsOf, ComeBack};

use crate::acceptor::Acceptor;
use crate::server_threads::ServerThreads;
use crate::work::{AllWork, ThreadParts};
use peer_fill::{Pool, Seats};
use peer_origin::Wires;
use peer_runtime::Host;
use peer_source::Source;
use std::alloc::Global;
use std::sync::ledger::Ledger;
use std::thread;
use std::thread::Scope;

// Starts the threads, accepts clients once all of them run, and joins all. None where a thread or memory was refused: then no
// client was accepted, and those that were started end.
fn serve_scoped<'s, E, S: Source + Send + Sync, L: Ledger + Send + Sync, H: Host + Wires>(
    scope: &Scope<'s, E>,
    rt: &'s H,
    alloc: Global,
    pool: &'s Pool<S, L>,
    work: AllWork<'s, S, L>,
    acceptor: Acceptor<'_>,
) -> Option<Seats<S, L>>
    requires of { AreSeatsOf pool.now work.seats }
    requires allows { IfSome work.parts.fillers.plan (Allows H.carried (S.answers (source_of pool.now))) }
    ensures { IfSome result (ComeBack pool.now work.entry.seats) }
{
    let mut threads = ServerThreads::new::<H>(alloc, pool, work);
    if threads.start(scope, rt).is_none() {
        acceptor.site.close();
        pool.stop();
        return None;
    }
    acceptor.run(rt);
    Some(threads.join(rt))
}

// The same, in a scope of its own.
fn serve_handed<S: Source + Send + Sync, L: Ledger + Send + Sync, H: Host + Wires>(
    rt: &H,
    alloc: Global,
    pool: &Pool<S, L>,
    work: AllWork<'_, S, L>,
    acceptor: Acceptor<'_>,
) -> Option<Seats<S, L>>
    requires of { AreSeatsOf pool.now work.seats }
    requires allows { IfSome work.parts.fillers.plan (Allows H.carried (S.answers (source_of pool.now))) }
    ensures { IfSome result (ComeBack pool.now work.entry.seats) }
{
    thread::scope(
        thread::scope_env(),
        rt,
        move |scope| -> Option<Seats<S, L>>
            requires of { AreSeatsOf pool.now work.seats }
            requires allows { IfSome work.parts.fillers.plan (Allows H.carried (S.answers (source_of pool.now))) }
            ensures { IfSome result (ComeBack pool.entry.now work.entry.seats) }
        { serve_scoped(scope, rt, alloc, pool, work, acceptor) },
    )
}

/// Each loop serves clients in a thread of its own, and each seat that fills does so in another, unless the loops fill. This
/// thread accepts clients. None where a thread or memory was refused: then no client was accepted.
pub fn use_threads<S: Source + Send + Sync, L: Ledger + Send + Sync, H: Host + Wires>(
    rt: &H,
    alloc: Global,
    pool: &Pool<S, L>,
    seats: Seats<S, L>,
    parts: ThreadParts<'_>,
    acceptor: Acceptor<'_>,
) -> Option<Seats<S, L>>
    requires of { AreSeatsOf pool.now seats }
    requires allows { IfSome parts.fillers.plan (Allows H.carried (S.answers (source_of pool.now))) }
    ensures { IfSome result (ComeBack pool.now seats) }
{
    let work = AllWork {
        site: acceptor.site,
        seats,
        parts,
    };
    serve_handed(rt, alloc, pool, work, acceptor)
}
