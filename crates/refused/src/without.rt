//! Calls that promise to take no memory. Each is made with all growths refused.
ghost use Rattle.peer_lane.specs.Lanes.{IsSameIn, IsSameOut};
ghost use Rattle.refused.specs.Lent.{AreOf};

use crate::connections::{FIRST_REPLY, THREE};
use crate::flights::lead;
use crate::heads::{pieces_of, reader_of};
use crate::lent::{Demo, DemoSeats};
use crate::seen::Seen;
use crate::sources::{ECHO, cache_with, fill_of, finds};
use crate::uses::{Call, over_pool};
use crate::window;
use bytes::Bytes;
use peer_flight::{Claim, FillRight, Flight, Table};
use peer_head::{FieldPlaces, HeadBuf, Look};
use peer_lane::{LaneIn, LaneOut, beside, lane};
use peer_path::locate;
use peer_reply::{Fault, HeadRoom, Reply, read_response};
use peer_source::{DemoSource, Fill, Names, Source};
use peer_view::{AllocSink, ByteView, MemReader, MemWriter, PeerRead, TruncSink, ViewSink};
use peer_wish::{Body, Ticket};
use std::alloc::{AllocError, Global};
use std::sync::Wait;
use std::sync::ledger::Ledger;
use std::thread::Threads;

const TEXT: &[u8] = b"what was there";

/// Calls that take no memory, by what they are of.
#[derive(Clone, Copy)]
pub enum Without {
    Views,
    Sinks,
    Devices,
    Sources,
    Caches,
    Heads,
    Replies,
    Flights,
    Lanes,
}

/// What these calls do.
pub fn see(alloc: Global, calls: Without) -> Option<Seen> {
    match calls {
        Without::Views => views(alloc),
        Without::Sinks => sinks(alloc),
        Without::Devices => devices(alloc),
        Without::Sources => sources(alloc),
        Without::Caches => caches(alloc),
        Without::Heads => heads(alloc),
        Without::Replies => replies(alloc),
        Without::Flights => flights(alloc),
        Without::Lanes => lanes(alloc),
    }
}

// That all of these hold.
fn all(held: &[bool]) -> Option<Seen> {
    Some(Seen::Answered.only_if(held.iter().all(|one| *one), "another answer"))
}

// The calls of a view of the text, beside another of it.
fn view_calls(alloc: Global, view: &ByteView, same: &ByteView) -> Option<Seen> {
    if view.len() < 14 {
        return None;
    }
    let mut room = [0u8; 4];
    window::begin(alloc);
    let held = [
        ByteView::from_shared(Bytes::from_static(b"x")).eq_bytes(b"x"),
        view.len() == 14,
        !view.is_empty(),
        view.as_slice() == TEXT,
        view.at(5) == b'w',
        view.range(5, 8) == b"was".as_slice(),
        view.parts_at(9) == (b"what was ".as_slice(), b"there".as_slice()),
        view.copy_to(&mut room) == 4,
        view.read_at(12, &mut room) == (2, true),
        view.eq_bytes(TEXT),
        view == same,
    ];
    window::end(alloc);
    all(&held)
}

// The calls of views.
fn views(alloc: Global) -> Option<Seen> {
    let view = ByteView::copy_of(alloc, TEXT).ok()?;
    let same = ByteView::copy_of(alloc, TEXT).ok()?;
    view_calls(alloc, &view, &same)
}

// The calls of sinks: one that is lent a view, and one of four bytes that is given another.
fn sink_calls(alloc: Global, lent: &mut ByteView, view: &ByteView) -> [bool; 4] {
    let mut destination = [0u8; 4];
    window::begin(alloc);
    let empty = AllocSink::new().into_view().is_empty();
    let _lends = ViewSink::new(lent);
    let mut sink = TruncSink::new(&mut destination);
    sink.set_bytes(b"a");
    let one = sink.len() == 1;
    sink.set_str("abc");
    let three = sink.len() == 3;
    sink.set_view(view);
    let same = &*sink.filled() == b"what".as_slice();
    window::end(alloc);
    [empty, one, three, same]
}

// The calls of sinks.
fn sinks(alloc: Global) -> Option<Seen> {
    let mut lent = ByteView::copy_of(alloc, TEXT).ok()?;
    let view = ByteView::copy_of(alloc, TEXT).ok()?;
    let [empty, one, three, same] = sink_calls(alloc, &mut lent, &view);
    all(&[empty, one, three, same, lent.eq_bytes(TEXT)])
}

// The calls of readers and writers in memory.
fn devices(alloc: Global) -> Option<Seen> {
    let pieces = pieces_of(alloc, TEXT)?;
    let mut room = [0u8; 4];
    window::begin(alloc);
    let mut reader = MemReader::new(pieces, false);
    let read = reader.read(&mut room) == Ok(4);
    let writer = MemWriter::new(alloc, 1, None);
    let none = writer.taken().is_empty();
    window::end(alloc);
    all(&[read, none, room.as_slice() == b"what".as_slice()])
}

// The calls of sources, names and fills.
fn sources(alloc: Global) -> Option<Seen> {
    let fill = fill_of(alloc, ECHO, b"k")?;
    window::begin(alloc);
    let names = Names::of(&DemoSource);
    let held = [
        DemoSource.group_count() == 3,
        DemoSource.group(b"echo") == Some(ECHO),
        names.group(b"echo") == Some(ECHO),
        names.group(b"nope").is_none(),
        fill.group() == ECHO,
        fill.key().eq_bytes(b"k"),
        finds(&fill, b"k"),
    ];
    window::end(alloc);
    all(&held)
}

// The calls of caches.
fn caches(alloc: Global) -> Option<Seen> {
    let cache = cache_with(alloc, b"ab")?;
    window::begin(alloc);
    let held = [cache.len() == 2, cache.bytes() == 4, !cache.is_empty()];
    window::end(alloc);
    all(&held)
}

// Whether a buffer begins with a GET of the key `a`, and how long it is.
fn looks(alloc: Global, held: &HeadBuf, places: &mut FieldPlaces) -> bool {
    let (look, _) = held.look(places);
    match look {
        Look::Head(head) => {
            head.method() == b"GET".as_slice()
                && head.version() == 1
                && head.field_count() == 1
                && !head.is_closing()
                && !head.is_bare()
                && is_place(alloc, head.target())
        }
        _ => false,
    }
}

// Whether a target is the key `a` of `echo`.
fn is_place(alloc: Global, target: &[u8]) -> bool {
    match locate(alloc, target) {
        Ok(place) => place.group() == b"echo".as_slice() && place.key() == b"a".as_slice(),
        Err(_) => false,
    }
}

// The calls of heads, and of targets without an escape.
fn heads(alloc: Global) -> Option<Seen> {
    let mut held = HeadBuf::new(alloc).ok()?;
    let mut reader = reader_of(alloc, THREE)?;
    window::begin(alloc);
    let mut places = FieldPlaces::new();
    let read = reader.read(held.room());
    if let Ok(n) = read {
        held.filled(n);
    }
    let seen = [
        read == Ok(135),
        held.rest() == THREE,
        looks(alloc, &held, &mut places),
    ];
    window::end(alloc);
    all(&seen)
}

// Whether the parts of a reply joined are this text.
fn is_reply(reply: &Reply<'_>, text: &[u8]) -> bool {
    let mut rest = text;
    for part in reply.parts() {
        match rest.strip_prefix(part) {
            Some(behind) => rest = behind,
            None => return false,
        }
    }
    rest.is_empty()
}

const NO_KEY: &[u8] =
    b"HTTP/1.1 400 Bad Request\r\nContent-Type: text/plain; charset=utf-8\r\nX-Content-Type-Options: nosniff\r\n\
    Content-Length: 12\r\n\r\nbad request\n";

// Whether the reply to a fault is this text.
fn tells(room: &mut HeadRoom, fault: &Fault, text: &[u8]) -> bool {
    is_reply(&Reply::of_fault(room, fault, false, false), text)
}

// Whether the reply to a fill is this text, or there is none.
fn gives(room: &mut HeadRoom, fill: &Fill<DemoSource>, text: Option<&[u8]>) -> bool {
    match (Reply::of_fill(room, fill, false, false), text) {
        (Some(reply), Some(text)) => is_reply(&reply, text),
        (None, None) => true,
        _ => false,
    }
}

// The calls of replies.
fn replies(alloc: Global) -> Option<Seen> {
    let fill = fill_of(alloc, ECHO, b"a")?;
    let key = ByteView::copy_of(alloc, b"a").ok()?;
    let unanswered = Fill::<DemoSource>::unanswered(ECHO, key);
    window::begin(alloc);
    let mut room = HeadRoom::new();
    let held = [
        tells(&mut room, &Fault::NoKey, NO_KEY),
        gives(&mut room, &unanswered, None),
        gives(&mut room, &fill, Some(FIRST_REPLY)),
        read_response(b"\x0A\x01a") == Ok(b"a".as_slice()),
    ];
    window::end(alloc);
    all(&held)
}

// The calls of a flight that was led, until it has landed.
fn land(
    alloc: Global,
    table: &mut Table<DemoSource>,
    flight: &Flight<DemoSource>,
    right: FillRight<DemoSource>,
    fill: Fill<DemoSource>,
) -> [bool; 8] {
    window::begin(alloc);
    let empty = Table::<DemoSource>::new(alloc).counts() == (0, 0);
    let mut note = flight.note();
    let none = flight.look(&mut note).is_none();
    let own = right.flight().number() == 0;
    let put = right.put(fill);
    let found = match flight.look(&mut note) {
        Some(fill) => finds(fill, b"k"),
        None => false,
    };
    let named = flight.group() == ECHO && flight.key().eq_bytes(b"k");
    let open = table.counts() == (1, 1);
    table.land(flight);
    let landed = table.counts() == (1, 0);
    window::end(alloc);
    [empty, none, own, put.kept, found, named, open, landed]
}

// The calls of a flight and of its table.
fn flights(alloc: Global) -> Option<Seen> {
    let fill = fill_of(alloc, ECHO, b"k")?;
    let mut table = Table::<DemoSource>::new(alloc);
    let (flight, right) = lead(alloc, &mut table)?;
    all(&land(alloc, &mut table, &flight, right, fill))
}

// Whether no other fill was needed.
fn is_enough(refilled: Result<Option<Fill<DemoSource>>, AllocError>) -> bool {
    match refilled {
        Ok(None) => true,
        _ => false,
    }
}

// Whether no other fill was needed for a claim than one of its key, in a pool that is stopped before. Growths are counted on
// behind that.
fn is_own_enough<L: Ledger, R: Wait>(
    lent: &Demo<'_, L, R>,
    claim: &Claim<DemoSource>,
) -> Option<bool> {
    let own = fill_of(lent.alloc, ECHO, b"k")?;
    window::begin(lent.alloc);
    lent.pool.stop();
    let refilled = is_enough(lent.pool.refill(lent.alloc, claim, &own));
    drop(own);
    Some(refilled)
}

/// The calls of a pool that was asked once. Growths are counted on behind them.
pub fn calls<L: Ledger, R: Wait>(lent: &Demo<'_, L, R>, seats: &mut DemoSeats<L>) -> Option<Seen>
    requires { AreOf lent.now.pool.now seats.old }
    ensures { AreOf lent.now.pool.now seats.new }
{
    let claim = lent.ask_for(seats, b"k")?;
    let refilled = is_own_enough(lent, &claim);
    drop(claim);
    let named = lent.pool.names().group(b"echo") == Some(ECHO);
    seats.conn.add_strangers(1);
    let counted = seats.counts() == [1, 0, 1, 0] && seats.conn.strangers() == 1;
    all(&[named, refilled?, counted])
}

/// The calls of a pool, with the one that closes it.
pub fn pool<H: Threads + Wait + Sync>(rt: &H, alloc: Global) -> Option<Seen> {
    let seen = over_pool(rt, alloc, Call::Without);
    window::end(alloc);
    seen
}

// Whether a ticket was put.
fn is_put(put: Result<(), Ticket<DemoSource>>) -> bool {
    match put {
        Ok(()) => true,
        Err(_ticket) => false,
    }
}

// Puts a ticket that closes, and says whether there was room.
fn puts(put: &mut LaneIn<DemoSource>) -> bool
    ensures { IsSameIn put.old put.new }
{
    is_put(put.put(Ticket {
        closing: true,
        bare: false,
        body: Body::Fault(Fault::Host),
    }))
}

// Whether a ticket was taken that closes.
fn is_closing(taken: Option<Ticket<DemoSource>>) -> bool {
    match taken {
        Some(ticket) => ticket.closing,
        None => false,
    }
}

// Takes a ticket, and says whether it is one that closes.
fn takes(taken: &mut LaneOut<DemoSource>) -> bool
    ensures { IsSameOut taken.old taken.new }
{
    is_closing(taken.take())
}

// The calls of a lane.
fn lanes(alloc: Global) -> Option<Seen> {
    let Ok((mut put, mut taken)) = lane::<DemoSource>(alloc) else {
        return None;
    };
    window::begin(alloc);
    let one = puts(&mut put);
    let left = beside(&mut put, &mut taken) == 1;
    let same = takes(&mut taken);
    let empty = beside(&mut put, &mut taken) == 0;
    window::end(alloc);
    all(&[one, left, same, empty])
}
