//! Worked wishes: what the bytes that are held ask for next, with its key lent or copied, and which replies close.
use peer_head::{FieldPlaces, Look, look_held};
use peer_reply::{Wish, WishBody};
use peer_source::{DemoSource, Names};
use peer_wish::{LentBody, Next, closes_after, next_kept, next_wish, wish_of};
use std::alloc::{AllocError, Global};
use std::test::Fail;

// A request behind a pair CR LF, and the start of another.
const OPEN: &[u8] = b"\r\nGET /_groupcache/echo/a%2Fb HTTP/1.1\r\nHost: h\r\n\r\nGET /_groupcache";

// A request whose reply closes and goes without its content.
const CLOSING: &[u8] =
    b"HEAD /_groupcache/echo/a/b HTTP/1.1\r\nHost: h\r\nConnection: close\r\n\r\n";

// The key of both.
const KEY: &[u8] = b"a/b";

// What was seen of a wish.
#[derive(Clone, Copy, Debug, PartialEq, Eq)]
struct Seen {
    // It is for this key of `echo`, the group 0 of the source for demonstrations.
    has_key: bool,
    closing: bool,
    bare: bool,
    // How many bytes its block takes, with the pairs before it.
    len: usize,
}

const SEEN_OPEN: Seen = Seen {
    has_key: true,
    closing: false,
    bare: false,
    len: 51,
};

const SEEN_CLOSING: Seen = Seen {
    has_key: true,
    closing: true,
    bare: true,
    len: 67,
};

// What is seen of a wish with its own key.
fn seen_of(wish: Wish, len: usize) -> Seen {
    let Wish {
        body,
        closing,
        bare,
    } = wish;
    let has_key = match body {
        WishBody::Get(group, key) => group.number == 0 && key.eq_bytes(KEY),
        WishBody::Fault(_fault) => false,
    };
    Seen {
        has_key,
        closing,
        bare,
        len,
    }
}

// Whether a body that lends its key is for this one of `echo`.
fn lends_key(body: &LentBody<'_>) -> bool {
    match body {
        LentBody::Get(group, place) => group.number == 0 && place.key() == KEY,
        LentBody::Fault(_fault) => false,
    }
}

// What is seen by `next_wish`.
fn next_lent(alloc: Global, held: &[u8]) -> Result<Option<Seen>, AllocError> {
    let mut places = FieldPlaces::new();
    let next = next_wish(alloc, &Names::of(&DemoSource), held, &mut places)?;
    let Some(Next { wish, len }) = next else {
        return Ok(None);
    };
    Ok(Some(Seen {
        has_key: lends_key(&wish.body),
        closing: wish.closing,
        bare: wish.bare,
        len,
    }))
}

// What is seen by `next_kept`.
fn next_copied(alloc: Global, held: &[u8]) -> Result<Option<Seen>, AllocError> {
    let mut places = FieldPlaces::new();
    let next = next_kept(alloc, &Names::of(&DemoSource), held, &mut places)?;
    let Some(Next { wish, len }) = next else {
        return Ok(None);
    };
    Ok(Some(seen_of(wish, len)))
}

// What is seen by `wish_of`.
fn of_head(alloc: Global, held: &[u8]) -> Result<Option<Seen>, AllocError> {
    let mut places = FieldPlaces::new();
    let (look, len) = look_held(held, &mut places);
    let Look::Head(head) = look else {
        return Ok(None);
    };
    let wish = wish_of(alloc, &Names::of(&DemoSource), &head)?;
    Ok(Some(seen_of(wish, len)))
}

#[test]
fn each_way_sees_the_same_wish(rt: HostRuntime) -> Result<(), Fail> {
    let alloc = rt.alloc();
    let rows: [(&[u8], Option<Seen>); 3] = [
        (OPEN, Some(SEEN_OPEN)),
        (CLOSING, Some(SEEN_CLOSING)),
        (b"GET /_groupcache", None),
    ];
    for (held, seen) in rows {
        assert_eq!(rt; next_lent(alloc, held)?, seen, "lent, of {held:?}");
        assert_eq!(rt; next_copied(alloc, held)?, seen, "copied, of {held:?}");
        assert_eq!(rt; of_head(alloc, held)?, seen, "of the head, of {held:?}");
    }
    Ok(())
}

#[test]
fn the_last_reply_of_a_connection_closes(rt: HostRuntime) -> Result<(), Fail> {
    assert!(rt; !closes_after(0, false));
    assert!(rt; closes_after(0, true));
    assert!(rt; !closes_after(9998, false));
    assert!(rt; closes_after(9999, false));
    Ok(())
}
