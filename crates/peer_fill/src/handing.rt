//! How the seats of a pool are handed to threads, one by one.
ghost use Rattle.std.specs.Prelude.{◌≡◌, ◌+◌, ◌<◌, All, IfNone, IfSome, sum_by, vec_len, vec_capacity};
ghost use Rattle.peer_fill.specs.Pools.{IsSeatOf};

use crate::pool::Pool;
use crate::seat::Seat;
use peer_source::Source;
use std::sync::ledger::Ledger;

/// Takes the last seat off the list.
pub fn pop_seat<S: Source, L: Ledger, T: Seat>(pool: &Pool<S, L>, seats: &mut Vec<T>) -> Option<T>
    requires { All (IsSeatOf T.pass_of pool.now) seats.old.items }
    ensures seat { IfSome result (IsSeatOf T.pass_of pool.now) }
    ensures rest { All (IsSeatOf T.pass_of pool.now) seats.new.items }
    ensures none { IfNone result (sum_by T.parts_of seats.old.items ≡ 0) }
    ensures empty { IfNone result ((vec_len seats.new ≡ 0) × (sum_by T.parts_of seats.new.items ≡ 0)) }
    ensures parts { IfSome result (λ seat. sum_by T.parts_of seats.old.items ≡ sum_by T.parts_of seats.new.items + T.parts_of seat) }
    ensures fewer { IfSome result (λ seat. vec_len seats.old ≡ vec_len seats.new + 1) }
    ensures capacity { vec_capacity seats.new ≡ vec_capacity seats.old }
{
    let seat = seats.pop()?;
    Some(seat)
}
