//! What happens while a worker serves a job: a gate asks for its key again, before its flight lands.
ghost use Rattle.std.specs.Prelude.{◌≡◌, ◌<◌};
ghost use Rattle.peer_fill.specs.Pools.{source_of, IsConnSeatOf};

use super::desk::{Desk, DeskSeats};
use super::numbering::Numbering;
use crate::tests::values::{ECHO, is_shown_by};
use peer_fill::{ConnSeat, Gate, Pool};
use peer_flight::Claim;
use peer_source::GroupId;
use std::alloc::Global;
use std::marker::Brand;
use std::sync::ledger::{Blank, Ledger};
use std::sync::{Mutex, Wait};
use test_support::ask_in;

// A seat of a pool that asks for keys.
#[derive(Drop)]
struct Asker<'a, L: Ledger> {
    pool: &'a Pool<Numbering, L>,
    alloc: Global,
    seat: ConnSeat<Numbering, L>,
    ghost of_pool: { IsConnSeatOf pool.now seat },
    ghost groups: { 0 < (source_of pool.now).groups },
}

impl<'a, L: Ledger> Asker<'a, L> {
    fn ask<R: Wait>(&mut self, rt: &R, key: &[u8]) {
        let _claim = ask_in(rt, self.alloc, self.pool, &mut self.seat, ECHO, key);
    }
}

// Asks again for each key whose fill was put, before its flight lands.
#[derive(Drop)]
struct Meddling<'a, L: Ledger> {
    asker: Mutex<Asker<'a, L>>,
}

impl<'a, L: Ledger + Send + Sync> Gate for Meddling<'a, L> {
    fn after_take<R: Wait>(&self, _rt: &R, _group: GroupId, _key: &[u8]) {}

    fn after_put<R: Wait>(&self, rt: &R, _number: u64, _group: GroupId, key: &[u8]) {
        self.asker.lock(rt).ask(rt, key);
    }
}

// What the second connection hit, led and joined, and what the worker counted.
#[derive(Clone, Copy, Debug, PartialEq, Eq)]
struct Counts {
    hits: u64,
    led: u64,
    joined: u64,
    calls: u64,
    rehits: u64,
}

// Asks for the key `k` as both connections.
fn ask_both<L: Ledger, R: Wait>(
    rt: &R,
    desk: &mut Desk<Numbering, L>,
) -> [Option<Claim<Numbering>>; 2] {
    let first = desk.ask(rt, ECHO, b"k");
    desk.change_seats();
    [first, desk.ask(rt, ECHO, b"k")]
}

// Runs the worker, by whose gate the connection asks again: what the connection counted then, and the worker.
fn meddle<L: Ledger + Send + Sync, R: Wait>(rt: &R, desk: Desk<Numbering, L>) -> Counts {
    let Desk { alloc, pool, seats } = desk;
    let DeskSeats {
        conn,
        other: _first,
        fill,
    } = seats;
    let asker = Asker {
        pool: &pool,
        alloc,
        seat: conn,
    };
    let gate = Meddling {
        asker: Mutex::new(asker),
    };
    pool.stop();
    let fill = pool.run_worker(rt, alloc, fill, &gate);
    let again = gate.asker.lock(rt);
    Counts {
        hits: again.seat.hits(),
        led: again.seat.led(),
        joined: again.seat.joined(),
        calls: fill.calls(),
        rehits: fill.rehits(),
    }
}

// Two connections ask for one key, and the second asks again by the gate of the worker: whether both claims show the
// value of the source's first call, and what was counted. Each cache keeps so many bytes.
fn seen<L: Ledger + Send + Sync, R: Wait>(
    rt: &R,
    alloc: Global,
    cache_bytes: u64,
    blank: Blank,
) -> Option<([bool; 2], Counts)>
    requires name { blank.name ≡ L.name }
    requires parts { (blank.parts ≡ L.parts) × (blank.parts ≡ 16) }
{
    let mut desk = Desk::<Numbering, L>::open(alloc, Numbering::new(2, 0, 0), cache_bytes, blank)?;
    let claims = ask_both(rt, &mut desk);
    let counts = meddle(rt, desk);
    let shown = [
        is_shown_by(&claims[0], b"k1"),
        is_shown_by(&claims[1], b"k1"),
    ];
    drop(claims);
    Some((shown, counts))
}

// Where values are kept, the one that was found is in its cache by then.
#[test]
fn a_flight_is_open_until_its_fill_was_put(rt: HostRuntime) {
    for (cache_bytes, hits, joined) in [(0, 0, 2), (6, 1, 1)] {
        let seen = seen::<Brand, HostRuntime>(&rt, rt.alloc(), cache_bytes, Blank::new(16));
        let counts = Counts {
            hits,
            led: 0,
            joined,
            calls: 1,
            rehits: 0,
        };
        assert_eq!(rt; seen, Some(([true; 2], counts)), "of {cache_bytes} bytes");
    }
}
