//! A seat that is put back when it was used.
ghost use Rattle.std.specs.Prelude.{All};
ghost use Rattle.peer_fill.specs.Pools.{IsSeatOf};

use peer_fill::{Pool, Seat};
use peer_source::Source;
use std::sync::ledger::Ledger;

/// Puts a seat back on its list. None where memory was refused.
pub fn push_seat<S: Source, L: Ledger, T: Seat + Drop>(
    pool: &Pool<S, L>,
    seats: &mut Vec<T>,
    seat: T,
) -> Option<()>
    requires seats { All (IsSeatOf T.pass_of pool.now) seats.old.items }
    requires seat { IsSeatOf T.pass_of pool.now seat }
    ensures { All (IsSeatOf T.pass_of pool.now) seats.new.items }
{
    seats.push(seat).ok()
}
