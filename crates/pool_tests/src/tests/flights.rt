//! Flights: that calls succeed, and a worked flight: led, joined, filled and landed.
//!
//! Each test asserts once: what it saw is collected in small functions, whose proofs are short.

use crate::tests::values::{ECHO, is_shown, shows};
use peer_flight::laws::{every_interleaving, one_answer};
use peer_flight::{Ask, Claim, FillRight, Flight, Table};
use peer_source::{DemoSource, Fill};
use peer_view::ByteView;
use std::alloc::{AllocError, Global};

// A flight that was wanted, with its right where it was led.
fn wanted(
    table: &mut Table<DemoSource>,
    alloc: Global,
    key: &ByteView,
) -> Option<(Flight<DemoSource>, Option<FillRight<DemoSource>>)> {
    match table.want(alloc, ECHO, key) {
        Ok(Ask::Led(flight, right)) => Some((flight, Some(right))),
        Ok(Ask::Joined(flight)) => Some((flight, None)),
        Err(_) => None,
    }
}

// A table with one flight, which was led, and its right.
#[derive(Drop)]
struct Led {
    table: Table<DemoSource>,
    key: ByteView,
    flight: Flight<DemoSource>,
    right: FillRight<DemoSource>,
}

// A flight that is led, in a table of its own.
fn lead(alloc: Global) -> Option<Led> {
    let key = ByteView::copy_of(alloc, b"k").ok()?;
    let mut table = Table::new(alloc);
    let (flight, right) = wanted(&mut table, alloc, &key)?;
    Some(Led {
        table,
        key,
        flight,
        right: right?,
    })
}

// A flight that is led, and a share of it that is joined.
fn lead_and_join(alloc: Global) -> Option<(Led, Flight<DemoSource>)> {
    let mut led = lead(alloc)?;
    let (share, right) = wanted(&mut led.table, alloc, &led.key)?;
    right.is_none().then_some((led, share))
}

// The fill of the source for demonstrations.
fn fill_of(alloc: Global) -> Option<Fill<DemoSource>> {
    let key = ByteView::copy_of(alloc, b"k").ok()?;
    Some(Fill::run(alloc, &DemoSource, ECHO, key))
}

// Whether a claim showed nothing before the right was put, and then the key, and the right kept the fill at flight 0.
fn put_shows(
    claim: &Claim<DemoSource>,
    right: FillRight<DemoSource>,
    fill: Fill<DemoSource>,
) -> [bool; 4] {
    let before = !is_shown(claim, b"k");
    let put = right.put(fill);
    [
        before,
        is_shown(claim, b"k"),
        put.kept,
        put.flight.number() == 0,
    ]
}

#[test]
fn a_flight_is_led_joined_and_filled(rt: HostRuntime) {
    let alloc = rt.alloc();
    let (led, second) = lead_and_join(alloc).expect(&rt, "memory");
    let fill = fill_of(alloc).expect(&rt, "memory");
    let is_placed = second.group() == ECHO && second.key().as_slice() == b"k".as_slice();
    let numbers = [
        led.flight.number(),
        second.number(),
        led.right.flight().number(),
    ];
    let claim = Claim::Pending(second);
    let shown = put_shows(&claim, led.right, fill);
    assert_eq!(rt; (is_placed, numbers, shown), (true, [0; 3], [true; 4]));
}

// The counts after the flight landed twice.
fn land_twice(led: &mut Led) -> (u64, usize) {
    led.table.land(&led.flight);
    led.table.land(&led.flight);
    led.table.counts()
}

// The number of a second flight, and the counts before and after the first one lands once more.
fn lead_again(led: &mut Led, alloc: Global) -> Option<(u64, [(u64, usize); 2])> {
    let (second, right) = wanted(&mut led.table, alloc, &led.key)?;
    let _right = right?;
    let before = led.table.counts();
    led.table.land(&led.flight);
    Some((second.number(), [before, led.table.counts()]))
}

#[test]
fn a_flight_lands_once(rt: HostRuntime) {
    let alloc = rt.alloc();
    let mut led = lead(alloc).expect(&rt, "memory");
    let landed = land_twice(&mut led);
    let again = lead_again(&mut led, alloc);
    assert_eq!(rt; (landed, again), ((1, 0), Some((1, [(2, 1), (2, 1)]))));
}

// Whether two claims of a flight show its fill, of which the laws of flights say that it is one.
fn claims_see(
    flight: Flight<DemoSource>,
    right: FillRight<DemoSource>,
    fill: Fill<DemoSource>,
) -> Result<[bool; 2], AllocError> {
    let other = Claim::Pending(flight.share()?);
    let one = Claim::Pending(flight);
    let (mut first, mut second) = (one.note(), other.note());
    let _put = right.put(fill);
    let seen = [
        shows(one.look(&mut first), b"k"),
        shows(other.look(&mut second), b"k"),
    ];
    one_answer(&one, &other, &mut first, &mut second);
    every_interleaving::<DemoSource>();
    Ok(seen)
}

#[test]
fn claims_of_one_flight_have_one_answer(rt: HostRuntime) {
    let alloc = rt.alloc();
    let led = lead(alloc).expect(&rt, "memory");
    let fill = fill_of(alloc).expect(&rt, "memory");
    assert_eq!(rt; claims_see(led.flight, led.right, fill), Ok([true, true]));
}
