//! What a thread does that fills: it fetches, or it calls the source.
ghost use Rattle.std.specs.Prelude.{◌≡◌, IfSome, Some};
ghost use Rattle.peer_fill.specs.Pools.{source_of, IsFillSeatOf};
ghost use Rattle.peer_fill.specs.Seats.{fill_parts};
ghost use Rattle.peer_fetch.specs.Threads.{Allows};

use peer_fetch::{FetchParts, FetchPlan, FetchThread};
use peer_fill::{FillSeat, Pool};
use peer_origin::Wires;
use peer_runtime::{Network, OwnWaker, PollWakers};
use peer_site::FillGate;
use peer_source::Source;
use std::alloc::Global;
use std::sync::ledger::Ledger;

/// A thread that fetches, and what wakes it.
#[derive(Drop)]
pub struct FetchWork<'a> {
    pub thread: FetchThread<'a>,
    pub waker: OwnWaker<'a>,
}

/// The next thread that fetches, where there is a plan.
pub fn next_fetcher<'a>(
    alloc: Global,
    plan: Option<FetchPlan<'a>>,
    parts: &mut Vec<FetchParts>,
    wakers: &'a PollWakers,
) -> Option<FetchWork<'a>>
    ensures { IfSome result (λ fetcher. plan.entry ≡ Some fetcher.thread.plan) }
{
    let plan = plan?;
    let own = parts.pop()?;
    let waker = wakers.at(parts.len())?;
    Some(FetchWork {
        thread: FetchThread::new(alloc, own, plan),
        waker,
    })
}

/// Fills jobs until the pool was stopped, or its waker closed, and there is none: by fetches, where it is given what that
/// needs, and else by calls of the source.
pub fn run_filler<S: Source, L: Ledger, H: Network + Wires>(
    rt: &H,
    alloc: Global,
    pool: &Pool<S, L>,
    seat: FillSeat<S, L>,
    fetcher: Option<FetchWork<'_>>,
    gate: &FillGate<'_>,
) -> FillSeat<S, L>
    requires seat { IsFillSeatOf pool.now seat }
    requires allows { IfSome fetcher (λ f. Allows H.carried (S.answers (source_of pool.now)) f.thread.plan) }
    ensures seat { IsFillSeatOf pool.now result }
    ensures parts { fill_parts result ≡ fill_parts seat }
{
    match fetcher {
        Some(FetchWork { thread, waker }) => thread.run(rt, pool, seat, waker, gate),
        None => pool.run_worker(rt, alloc, seat, gate),
    }
}
