//! The table of open flights, and flights.

use crate::seen::Seen;
use crate::sources::ECHO;
use crate::window;
use peer_flight::{Ask, AskFault, FillRight, Flight, Table};
use peer_source::DemoSource;
use peer_view::ByteView;
use std::alloc::{AllocError, Global};

// What a want gave: whether it led, and the number of the flight. None where memory was refused.
fn want(
    alloc: Global,
    table: &mut Table<DemoSource>,
    key: &ByteView,
) -> Result<(bool, u64), AskFault> {
    match table.want(alloc, ECHO, key) {
        Ok(Ask::Led(flight, _right)) => Ok((true, flight.number())),
        Ok(Ask::Joined(flight)) => Ok((false, flight.number())),
        Err(fault) => Err(fault),
    }
}

// The same with growths counted.
fn want_counted(
    alloc: Global,
    table: &mut Table<DemoSource>,
    key: &ByteView,
) -> Result<(bool, u64), AskFault> {
    window::begin(alloc);
    let wanted = want(alloc, table, key);
    window::end(alloc);
    wanted
}

// What a want was seen to do that is to give this. Where it is refused, the same want then gives it.
fn want_seen(
    alloc: Global,
    table: &mut Table<DemoSource>,
    key: &ByteView,
    usual: (bool, u64),
) -> Option<Seen> {
    let before = table.counts();
    match want_counted(alloc, table, key) {
        Ok(gave) => Some(Seen::Answered.only_if(gave == usual, "another flight")),
        Err(AskFault::Memory) => {
            let same = table.counts() == before;
            let again = want(alloc, table, key).ok()?;
            let seen = Seen::Refused.only_if(same, "the table changed");
            Some(seen.only_if(again == usual, "the same want then gives another flight"))
        }
        Err(AskFault::Worn) => Some(Seen::Wrong("worn")),
    }
}

/// `Table::want` of a place that is open, or is not.
pub fn want_one(alloc: Global, open: bool) -> Option<Seen> {
    let key = ByteView::copy_of(alloc, b"k").ok()?;
    let mut table = Table::new(alloc);
    if open {
        want(alloc, &mut table, &key).ok()?;
    }
    let seen = want_seen(alloc, &mut table, &key, (!open, 0))?;
    Some(seen.only_if(table.counts() == (1, 1), "the counts do not fit"))
}

// How many flights one table leads.
const MANY: u8 = 100;

// Wants many keys of one letter, and says how many were refused, or none where one was not what it has to be.
fn want_each(alloc: Global, table: &mut Table<DemoSource>, keys: &[ByteView]) -> Option<u64> {
    let mut refused: u64 = 0;
    for key in keys {
        let (led, open) = table.counts();
        let right = match want(alloc, table, key) {
            Ok(gave) => {
                if gave != (true, led) {
                    return None;
                }
                (led.wrapping_add(1), open.wrapping_add(1))
            }
            Err(AskFault::Memory) => {
                refused = refused.wrapping_add(1);
                (led, open)
            }
            Err(AskFault::Worn) => return None,
        };
        if table.counts() != right {
            return None;
        }
    }
    Some(refused)
}

// Many keys of one letter.
fn many_keys(alloc: Global) -> Option<Vec<ByteView>> {
    let mut keys = Vec::new(alloc);
    for letter in 0..MANY {
        keys.push(ByteView::copy_of(alloc, &[letter]).ok()?).ok()?;
    }
    Some(keys)
}

/// `Table::want`, so often that the table grows.
pub fn want_many(alloc: Global) -> Option<Seen> {
    let keys = many_keys(alloc)?;
    let mut table = Table::new(alloc);
    window::begin(alloc);
    let refused = want_each(alloc, &mut table, &keys);
    window::end(alloc);
    let (led, _) = table.counts();
    Some(Seen::of_many(MANY, refused, led))
}

/// The first flight of a table, for the key `k`, and the right to land it. None where memory was refused.
pub fn lead(
    alloc: Global,
    table: &mut Table<DemoSource>,
) -> Option<(Flight<DemoSource>, FillRight<DemoSource>)> {
    let key = ByteView::copy_of(alloc, b"k").ok()?;
    match table.want(alloc, ECHO, &key) {
        Ok(Ask::Led(flight, right)) => Some((flight, right)),
        Ok(Ask::Joined(_)) | Err(_) => None,
    }
}

// Whether this is the first flight, for the key `k`.
fn is_first(flight: &Flight<DemoSource>) -> bool {
    flight.number() == 0 && flight.group() == ECHO && flight.key().eq_bytes(b"k")
}

// `Flight::share` of this flight.
fn share_seen(alloc: Global, flight: &Flight<DemoSource>) -> Seen {
    window::begin(alloc);
    let shared = flight.share();
    window::end(alloc);
    match shared {
        Ok(shared) => Seen::Answered.only_if(is_first(&shared), "another flight"),
        Err(AllocError) => Seen::Refused,
    }
}

/// `Flight::share`.
pub fn flight_share(alloc: Global) -> Option<Seen> {
    let mut table = Table::<DemoSource>::new(alloc);
    let (flight, _right) = lead(alloc, &mut table)?;
    let seen = share_seen(alloc, &flight);
    Some(seen.only_if(is_first(&flight), "the flight changed"))
}
