//! One pool with one worker and one connection: opened, used by one of the calls, and closed.
ghost use Rattle.std.specs.Prelude.{◌≡◌, All, IfSome};
ghost use Rattle.peer_fill.specs.Pools.{IsConnSeatOf, IsFillSeatOf};
ghost use Rattle.refused.specs.Lent.{AreOf};

use crate::connections::connection;
use crate::lent::{Demo, DemoSeats, Lent};
use crate::pools::{Before, CACHE_BYTES, adds_up, ask, refill, work};
use crate::seen::Seen;
use crate::talking::talk;
use crate::talks::Talk;
use crate::without;
use peer_fill::{Report, Seats};
use peer_source::DemoSource;
use std::alloc::Global;
use std::marker::Brand;
use std::sync::Wait;
use std::sync::ledger::{Blank, Ledger};
use std::thread::Threads;
use test_support::{close_pool, open_pool};

/// The call that is made over a pool.
#[derive(Clone, Copy)]
pub enum Call {
    Ask(Before),
    Work,
    Refill,
    Connection,
    /// The calls of an exchange.
    Talk(Talk),
    /// The calls that take no memory.
    Without,
}

impl Call {
    // Whether a report is one of a pool of which this call was made.
    fn fits(self, report: &Report) -> bool {
        match self {
            Call::Ask(_) | Call::Refill => true,
            Call::Work => report.led == 1 && report.calls == 1 && report.left == 0,
            Call::Connection | Call::Talk(_) => report.left == 0,
            Call::Without => report.left == 1,
        }
    }

    // How many bytes each cache of its pool keeps.
    fn cache_bytes(self) -> u64 {
        match self {
            Call::Talk(what) => what.cache_bytes(),
            _ => CACHE_BYTES,
        }
    }
}

// Makes the call with these seats.
fn make<L: Ledger + Send + Sync, H: Threads + Wait + Sync>(
    lent: &Demo<'_, L, H>,
    mut seats: DemoSeats<L>,
    call: Call,
) -> Option<(DemoSeats<L>, Seen)>
    requires { AreOf lent.now.pool.now seats }
    ensures { IfSome result (λ done. AreOf lent.now.pool.now done.0) }
{
    let seen = match call {
        Call::Ask(before) => ask(lent, &mut seats, before),
        Call::Refill => refill(lent, &mut seats),
        Call::Without => without::calls(lent, &mut seats),
        Call::Talk(what) => talk(lent, &mut seats, what),
        Call::Work => return work(lent, seats),
        Call::Connection => return connection(lent, seats),
    };
    Some((seats, seen?))
}

// Makes the call with seats from these lists, and says what was seen and how often the connection asked.
fn make_with<L: Ledger + Send + Sync, H: Threads + Wait + Sync>(
    lent: &Demo<'_, L, H>,
    lists: &mut Seats<DemoSource, L>,
    call: Call,
) -> Option<(Seen, u64)>
    requires fills { All (IsFillSeatOf lent.now.pool.now) lists.old.fills.items }
    requires conns { All (IsConnSeatOf lent.now.pool.now) lists.old.conns.items }
    ensures fills { All (IsFillSeatOf lent.now.pool.now) lists.new.fills.items }
    ensures conns { All (IsConnSeatOf lent.now.pool.now) lists.new.conns.items }
{
    let seats = lent.take_seats(lists)?;
    let (seats, seen) = make(lent, seats, call)?;
    let asked = seats.conn.asked();
    lent.put_seats(lists, seats);
    Some((seen, asked))
}

// What was seen, if the report fits to it.
fn judged(seen: Option<(Seen, u64)>, report: Option<Report>, call: Call) -> Option<Seen> {
    let (seen, asked) = seen?;
    let report = report?;
    let same = adds_up(&report) && report.asked == asked && call.fits(&report);
    Some(seen.only_if(same, "the report does not fit"))
}

// The same in a ledger.
fn over_ledger<L: Ledger + Send + Sync, H: Threads + Wait + Sync>(
    rt: &H,
    alloc: Global,
    call: Call,
    blank: Blank,
) -> Option<Seen>
    requires name { blank.name ≡ L.name }
    requires parts { (blank.parts ≡ L.parts) × (blank.parts ≡ 16) }
{
    match open_pool::<DemoSource, L>(alloc, DemoSource, call.cache_bytes(), 1, 1, blank) {
        Some((pool, mut lists)) => {
            let seen = make_with(&Lent::new(rt, alloc, &pool), &mut lists, call);
            judged(seen, close_pool(rt, pool, lists), call)
        }
        None => None,
    }
}

/// A call over a pool, which is closed then.
pub fn over_pool<H: Threads + Wait + Sync>(rt: &H, alloc: Global, call: Call) -> Option<Seen> {
    over_ledger::<Brand, H>(rt, alloc, call, Blank::new(16))
}
