//! How a thread is started for each seat of a list.
ghost use Rattle.std.specs.Prelude.{◌≡◌, [], All, IfSome, sum_by};
ghost use Rattle.peer_fill.specs.Pools.{IsSeatOf};
ghost use Rattle.peer_socket.specs.Threads.{all_parts, AreDealt};

use peer_fill::{Keeps, Pool, Seat, pop_seat};
use peer_source::Source;
use std::sync::ledger::Ledger;
use std::thread::{PromisedHandle, Scope};

/// A thread that was handed a seat and gives it back.
pub type SeatHandle<'a, S, L, T> = PromisedHandle<T, Keeps<'a, S, L, T>>;

// Starts a thread that calls `run` with the seat. None where it was refused.
fn start_seat<'s, E, S: Source + Send + Sync, L: Ledger + Send + Sync, T, F>(
    scope: &Scope<'s, E>,
    pool: &'s Pool<S, L>,
    seat: T,
    run: F,
) -> Option<SeatHandle<'s, S, L, T>>
where
    T: Seat + Send + Drop + 's,
    F: Fn(T) -> T + Copy + Send + 's,
    requires runs { F.pre run seat }
    requires own { (back : _) → F.post run seat back → IsSeatOf T.pass_of pool.now back }
    requires parts { (back : _) → F.post run seat back → T.parts_of back ≡ T.parts_of seat }
    ensures pool { IfSome result (λ x. x.promise.pool.now ≡ pool.now) }
    ensures seat { IfSome result (λ x. x.promise.seat.value ≡ seat) }
{
    let promise = Keeps::new(pool, &seat);
    let work = move || -> T
        requires { F.pre run seat }
        ensures { F.post run seat result }
    { run(seat) };
    scope.spawn_with(promise, work).ok()
}

/// Starts a thread for each seat of the list, which calls `run` with it. None where memory or a thread was refused.
pub fn start_seats<'s, E, S: Source + Send + Sync, L: Ledger + Send + Sync, T, F>(
    scope: &Scope<'s, E>,
    pool: &'s Pool<S, L>,
    seats: &mut Vec<T>,
    threads: &mut Vec<SeatHandle<'s, S, L, T>>,
    run: F,
) -> Option<()>
where
    T: Seat + Send + Drop + 's,
    F: Fn(T) -> T + Copy + Send + 's,
    requires seats { All (IsSeatOf T.pass_of pool.now) seats.old.items }
    requires threads { threads.old.items ≡ [] }
    requires runs { (seat : _) → IsSeatOf T.pass_of pool.now seat → F.pre run seat }
    requires own { (seat : _) (back : _) → F.post run seat back → IsSeatOf T.pass_of pool.now back }
    requires parts { (seat : _) (back : _) → F.post run seat back → T.parts_of back ≡ T.parts_of seat }
    ensures dealt { IfSome result (λ _. AreDealt (IsSeatOf T.pass_of pool.now) pool.now seats.new threads.new) }
    ensures parts { IfSome result (λ _. all_parts T.parts_of seats.new threads.new ≡ sum_by T.parts_of seats.old.items) }
{
    threads.reserve(seats.len()).ok()?;
    while let Some(seat) = pop_seat(pool, seats) {
        let handle = start_seat(scope, pool, seat, run)?;
        threads.push_reserved(handle);
    }
    Some(())
}
