//! Workers: in the same thread, and in threads of their own.
ghost use Rattle.std.specs.Prelude.{◌≡◌, All, IfOk, IfSome};
ghost use Rattle.peer_fill.specs.Seats.{fill_parts};
ghost use Rattle.peer_fill.specs.Pools.{IsFillSeatOf};

use crate::seats::push_seat;
use peer_fill::{FillSeat, Gate, Keeps, NoGate, Pool, pop_seat};
use peer_source::Source;
use std::alloc::{AllocError, Global};
use std::sync::Wait;
use std::sync::ledger::Ledger;
use std::thread;
use std::thread::Threads;

/// Has a worker of this list do the jobs of a pool that was stopped. None where the list is empty or memory was refused.
pub fn do_jobs<S: Source, L: Ledger, R: Wait>(
    rt: &R,
    alloc: Global,
    pool: &Pool<S, L>,
    fills: &mut Vec<FillSeat<S, L>>,
) -> Option<()>
    requires { All (IsFillSeatOf pool.now) fills.old.items }
    ensures { All (IsFillSeatOf pool.now) fills.new.items }
{
    let fill = pop_seat(pool, fills)?;
    let fill = pool.run_worker(rt, alloc, fill, &NoGate);
    push_seat(pool, fills, fill)
}

/// Has each worker work in a thread of its own until the pool is stopped.
pub fn work_all<
    S: Source + Send + Sync,
    L: Ledger + Send + Sync,
    G: Gate + Sync,
    H: Threads + Wait + Sync,
>(
    rt: &H,
    alloc: Global,
    pool: &Pool<S, L>,
    fills: Vec<FillSeat<S, L>>,
    gate: &G,
) -> Result<Vec<FillSeat<S, L>>, AllocError>
    requires { All (IsFillSeatOf pool.now) fills.items }
    ensures { IfOk result (λ seats. All (IsFillSeatOf pool.now) seats.items) }
{
    let work = |seat: FillSeat<S, L>| -> FillSeat<S, L>
        requires { IsFillSeatOf pool.now seat }
        ensures { IsFillSeatOf pool.entry.now result }
    { pool.run_worker(rt, alloc, seat, gate) };
    thread::map_vec(rt, fills, &work)
}

/// Makes a call beside a worker. The pool is stopped then, and the worker taken in. None where the thread was refused.
pub fn beside_worker<
    S: Source + Send + Sync,
    L: Ledger + Send + Sync,
    T: Drop,
    C: FnOnce() -> T,
    H: Threads + Wait + Sync,
>(
    rt: &H,
    alloc: Global,
    pool: &Pool<S, L>,
    fill: FillSeat<S, L>,
    call: C,
) -> Option<(FillSeat<S, L>, T)>
    requires fill { IsFillSeatOf pool.now fill }
    requires call { C.pre call }
    ensures fill { IfSome result (λ done. IsFillSeatOf pool.now done.0) }
    ensures call { IfSome result (λ done. C.post call done.1) }
{
    thread::scope(
        thread::scope_env(),
        rt,
        move |scope| -> Option<(FillSeat<S, L>, T)>
            requires fill { IsFillSeatOf pool.now fill }
            requires call { C.pre call }
            ensures fill { IfSome result (λ done. IsFillSeatOf pool.entry.now done.0) }
            ensures call { IfSome result (λ done. C.post call done.1) }
        {
            let keeps = Keeps::new(pool, &fill);
            let work = move ||
                requires { IsFillSeatOf pool.now fill }
                ensures { IsFillSeatOf pool.entry.now result × (fill_parts result ≡ fill_parts fill) }
            { pool.run_worker(rt, alloc, fill, &NoGate) };
            let Ok(worker) = scope.spawn_with(keeps, work) else {
                return None;
            };
            let done = call();
            pool.stop();
            let fill = worker.join(rt);
            Some((fill, done))
        },
    )
}
