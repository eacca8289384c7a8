//! Asks for keys.
ghost use Rattle.std.specs.Prelude.{◌<◌};
ghost use Rattle.peer_fill.specs.Pools.{source_of, IsConnSeatOf};

use peer_fill::{ConnSeat, Pool};
use peer_flight::Claim;
use peer_source::{GroupId, Source};
use peer_view::ByteView;
use std::alloc::Global;
use std::sync::Wait;
use std::sync::ledger::Ledger;

/// A claim on a key of this group. None where memory was refused.
pub fn ask_in<S: Source, L: Ledger, R: Wait>(
    rt: &R,
    alloc: Global,
    pool: &Pool<S, L>,
    seat: &mut ConnSeat<S, L>,
    group: GroupId,
    key: &[u8],
) -> Option<Claim<S>>
    requires seat { IsConnSeatOf pool.now seat.old }
    requires group { group.number < S.count (source_of pool.now) }
    ensures { IsConnSeatOf pool.now seat.new }
{
    let key = ByteView::copy_of(alloc, key).ok()?;
    pool.ask(rt, alloc, seat, group, key).ok()
}

/// A claim on a key of the group `echo`. None where memory was refused.
pub fn ask_for<S: Source, L: Ledger, R: Wait>(
    rt: &R,
    alloc: Global,
    pool: &Pool<S, L>,
    seat: &mut ConnSeat<S, L>,
    key: &[u8],
) -> Option<Claim<S>>
    requires { IsConnSeatOf pool.now seat.old }
    ensures { IsConnSeatOf pool.now seat.new }
{
    let group = pool.names().group(b"echo")?;
    ask_in(rt, alloc, pool, seat, group, key)
}
