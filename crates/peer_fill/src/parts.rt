//! Whether the seats that are handed in are all seats of their kind.
ghost use Rattle.std.specs.Prelude.{◌≡◌, ◌↔◌, IsTrue, sum_by};
ghost use Rattle.peer_fill.specs.Seats.{HaveAllConns, HaveAllFills};

use crate::seat::{MAX_SEATS, Seat};
use crate::seats::{ConnSeat, FillSeat};
use peer_source::Source;
use std::sync::ledger::Ledger;

// Whether these seats have all parts of their kind.
fn have_all_parts<T: Seat>(seats: &[T]) -> bool
    ensures { IsTrue result ↔ (sum_by T.parts_of seats.now ≡ 16) }
{
    let mut sum = 0;
    for seat in seats {
        sum += seat.parts();
        if sum > MAX_SEATS {
            return false;
        }
    }
    sum == MAX_SEATS
}

/// Whether these seats have all parts of the connections.
pub fn has_all_conns<S: Source, L: Ledger>(seats: &[ConnSeat<S, L>]) -> bool
    ensures { IsTrue result ↔ HaveAllConns seats.now }
{
    have_all_parts(seats)
}

/// Whether these seats have all parts of the workers.
pub fn has_all_fills<S: Source, L: Ledger>(seats: &[FillSeat<S, L>]) -> bool
    ensures { IsTrue result ↔ HaveAllFills seats.now }
{
    have_all_parts(seats)
}
