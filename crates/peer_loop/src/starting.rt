//! How one thread of a server is started, that of a loop or one that fills, and what it does.
ghost use Rattle.std.specs.Prelude.{◌≡◌, IfSome};
ghost use Rattle.peer_fill.specs.Pools.{source_of, IsFillSeatOf};
ghost use Rattle.peer_fill.specs.Seats.{fill_parts};
ghost use Rattle.peer_fetch.specs.Threads.{Allows};
ghost use Rattle.peer_clients.specs.Parts.{AreOf, KeepsParts};
ghost use Rattle.peer_loop.specs.Works.{IsFillWorkOf};

use crate::dealing::KeepsLoop;
use crate::filler::run_filler;
use crate::work::FillWork;
use peer_clients::{LoopSeats, LoopWork, run_loop};
use peer_fill::{FillSeat, Keeps, Pool};
use peer_origin::Wires;
use peer_runtime::Host;
use peer_source::Source;
use std::alloc::Global;
use std::sync::ledger::Ledger;
use std::thread::{PromisedHandle, Scope};

/// The thread of a loop.
pub type LoopHandle<'a, S, L> = PromisedHandle<LoopSeats<S, L>, KeepsLoop<'a, S, L>>;

/// A thread that fills.
pub type FillHandle<'a, S, L> = PromisedHandle<FillSeat<S, L>, Keeps<'a, S, L, FillSeat<S, L>>>;

/// Starts the thread of a loop. None where it was refused.
pub fn spawn_loop<'s, E, S: Source + Send + Sync, L: Ledger + Send + Sync, H: Host>(
    scope: &Scope<'s, E>,
    rt: &'s H,
    alloc: Global,
    pool: &'s Pool<S, L>,
    work: LoopWork<'s, S, L>,
) -> Option<LoopHandle<'s, S, L>>
    requires { AreOf pool.now work.seats }
    ensures pool { IfSome result (λ x. x.promise.pool.now ≡ pool.now) }
    ensures seats { IfSome result (λ x. x.promise.seats.value ≡ work.entry.seats) }
{
    let promise = KeepsLoop::new(pool, &work.seats);
    let serve = move || -> LoopSeats<S, L>
        requires { AreOf pool.now work.seats }
        ensures of { AreOf pool.entry.now result }
        ensures parts { KeepsParts work.entry.seats result }
    { run_loop(rt, alloc, pool, work) };
    scope.spawn_with(promise, serve).ok()
}

/// Starts a thread that fills. None where it was refused.
pub fn spawn_filler<'s, E, S: Source + Send + Sync, L: Ledger + Send + Sync, H: Host + Wires>(
    scope: &Scope<'s, E>,
    rt: &'s H,
    alloc: Global,
    pool: &'s Pool<S, L>,
    work: FillWork<'s, S, L>,
) -> Option<FillHandle<'s, S, L>>
    requires { IsFillWorkOf H.carried pool.now work }
    ensures pool { IfSome result (λ x. x.promise.pool.now ≡ pool.now) }
    ensures seat { IfSome result (λ x. x.promise.seat.value ≡ work.entry.seat) }
{
    let FillWork {
        seat,
        fetcher,
        gate,
    } = work;
    let promise = Keeps::new(pool, &seat);
    let fill = move || -> FillSeat<S, L>
        requires seat { IsFillSeatOf pool.now seat }
        requires allows { IfSome fetcher (λ f. Allows H.carried (S.answers (source_of pool.now)) f.thread.plan) }
        ensures seat { IsFillSeatOf pool.entry.now result }
        ensures parts { fill_parts result ≡ fill_parts seat }
    { run_filler(rt, alloc, pool, seat, fetcher, &gate) };
    scope.spawn_with(promise, fill).ok()
}
