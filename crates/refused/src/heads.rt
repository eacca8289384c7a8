//! Heads, their targets and lanes: calls that take their memory at once.

ghost use Rattle.std.specs.Prelude.{◌≡◌, IfSome};

use crate::seen::Seen;
use crate::sources::ECHO;
use crate::window;
use peer_conn::wish_of;
use peer_head::{FieldPlaces, HeadBuf, Look};
use peer_lane::{beside, lane};
use peer_path::{PathFault, Place, locate};
use peer_reply::{Fault, Wish, WishBody};
use peer_source::{DemoSource, Names};
use peer_view::{MemReader, PeerRead};
use std::alloc::{AllocError, Global};

/// `HeadBuf::new`.
pub fn head_buf(alloc: Global) -> Option<Seen> {
    window::begin(alloc);
    let held = HeadBuf::new(alloc);
    window::end(alloc);
    Some(match held {
        Ok(held) => Seen::Answered.only_if(held.rest().is_empty(), "it holds bytes"),
        Err(AllocError) => Seen::Refused,
    })
}

// What was seen of a target that names the key `ab` of `echo`.
fn place_seen(located: &Result<Place<'_>, PathFault>) -> Seen {
    match located {
        Ok(place) => {
            let same = place.group() == b"echo".as_slice() && place.key() == b"ab".as_slice();
            Seen::Answered.only_if(same, "another place")
        }
        Err(PathFault::Memory) => Seen::Refused,
        Err(_) => Seen::Wrong("a fault that is none"),
    }
}

// Whether a bad escape was told.
fn is_bad_escape(located: &Result<Place<'_>, PathFault>) -> bool {
    matches!(located, Err(PathFault::Escape))
}

/// `locate` of a target with an escape. A fault that has no need of memory is told, whatever is refused.
pub fn locate_escaped(alloc: Global) -> Option<Seen> {
    window::begin(alloc);
    let located = locate(alloc, b"/_groupcache/echo/%61b");
    let bad = locate(alloc, b"/_groupcache/echo/%6");
    window::end(alloc);
    Some(place_seen(&located).only_if(is_bad_escape(&bad), "a bad escape was not told"))
}

/// A text as one piece.
pub fn pieces_of(alloc: Global, text: &[u8]) -> Option<Vec<Vec<u8>>> {
    let mut pieces = Vec::new(alloc);
    pieces.push(text.to_vec(alloc).ok()?).ok()?;
    Some(pieces)
}

/// A reader of one piece.
pub fn reader_of(alloc: Global, text: &[u8]) -> Option<MemReader>
    ensures { IfSome result (λ reader. reader.calls ≡ 0) }
{
    let pieces = pieces_of(alloc, text)?;
    Some(MemReader::new(pieces, false))
}

// A buffer that holds what a reader gives at once.
fn held_of(alloc: Global, text: &[u8]) -> Option<HeadBuf> {
    let mut reader = reader_of(alloc, text)?;
    let mut held = HeadBuf::new(alloc).ok()?;
    let n = reader.read(held.room()).ok()?;
    held.filled(n);
    Some(held)
}

// The wish of a head, with growths counted.
fn wish(alloc: Global, text: &[u8]) -> Option<Result<Wish, AllocError>> {
    let held = held_of(alloc, text)?;
    let mut places = FieldPlaces::new();
    let (look, _) = held.look(&mut places);
    match look {
        Look::Head(head) => {
            window::begin(alloc);
            let wish = wish_of(alloc, &Names::of(&DemoSource), &head);
            window::end(alloc);
            Some(wish)
        }
        _ => None,
    }
}

// What a wish was seen to be, where it has to be right in this way.
fn wish_seen<F: FnOnce(Wish) -> bool>(alloc: Global, text: &[u8], is_right: F) -> Option<Seen>
    requires { F.IsAlwaysCallable is_right }
{
    match wish(alloc, text)? {
        Ok(wish) => Some(Seen::Answered.only_if(is_right(wish), "another wish")),
        Err(AllocError) => Some(Seen::Refused),
    }
}

// Whether a wish asks for the key `a` of `echo`.
fn asks_for_a(wish: Wish) -> bool {
    let Wish { body, .. } = wish;
    match body {
        WishBody::Get(group, key) => group == ECHO && key.eq_bytes(b"a"),
        WishBody::Fault(_fault) => false,
    }
}

/// `wish_of` a head with an escape.
pub fn wish_escaped(alloc: Global) -> Option<Seen> {
    let text = b"GET /_groupcache/echo/%61 HTTP/1.1\r\nHost: h\r\n\r\n";
    wish_seen(alloc, text, asks_for_a)
}

// Whether a fault says that there is no group of this name.
fn lacks_group(fault: &Fault, name: &[u8]) -> bool {
    match fault {
        Fault::NoGroup(told) => told.eq_bytes(name),
        _ => false,
    }
}

// Whether a wish names a group that is none.
fn names_no_group(wish: Wish) -> bool {
    let Wish { body, .. } = wish;
    match body {
        WishBody::Get(_group, _key) => false,
        WishBody::Fault(fault) => lacks_group(&fault, b"nope"),
    }
}

/// `wish_of` a head with the name of no group, whose fault keeps the name.
pub fn wish_no_group(alloc: Global) -> Option<Seen> {
    let text = b"GET /_groupcache/nope/a HTTP/1.1\r\nHost: h\r\n\r\n";
    wish_seen(alloc, text, names_no_group)
}

/// `lane`.
pub fn lane_new(alloc: Global) -> Option<Seen> {
    window::begin(alloc);
    let made = lane::<DemoSource>(alloc);
    window::end(alloc);
    Some(match made {
        Ok((mut put, mut taken)) => {
            Seen::Answered.only_if(beside(&mut put, &mut taken) == 0, "tickets are in it")
        }
        Err(AllocError) => Seen::Refused,
    })
}
