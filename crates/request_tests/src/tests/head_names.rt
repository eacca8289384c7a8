//! Heads behind another one of their connection: what the second asks for, whether it is like the first or not.
use peer_head::FieldPlaces;
use peer_source::{DemoSource, Names};
use peer_wish::{HeadNames, LentBody, LentWish, Next};
use std::alloc::{AllocError, Global};
use std::test::Fail;

// The first head of most rows, and the second of some.
const ONE: &[u8] = b"GET /_groupcache/echo/one HTTP/1.1\r\nHost: h\r\n\r\n";

// The same without its content, as the last of its connection, in the older version, and without what each head must have.
const BARE: &[u8] = b"HEAD /_groupcache/echo/one HTTP/1.1\r\nHost: h\r\n\r\n";

const LAST: &[u8] = b"GET /_groupcache/echo/one HTTP/1.1\r\nHost: h\r\nConnection: close\r\n\r\n";

const OLDER: &[u8] = b"GET /_groupcache/echo/one HTTP/1.0\r\nHost: h\r\n\r\n";

const BAD: &[u8] = b"GET /_groupcache/echo/one HTTP/1.1\r\n\r\n";

// Its target names the same place by an escape, and that of the next one by its absolute form.
const ESCAPED: &[u8] = b"GET /_groupcache/ech%6F/one HTTP/1.1\r\nHost: h\r\n\r\n";

const ABSOLUTE: &[u8] = b"GET http://h/_groupcache/echo/one HTTP/1.1\r\nHost: h\r\n\r\n";

// A second head behind a first, the key that it asks for of `echo`, and a word for how.
type Row = (&'static [u8], &'static [u8], &'static [u8], &'static str);

const ROWS: [Row; 30] = [
    (ONE, ONE, b"one", "open"),
    (
        ONE,
        b"GET /_groupcache/echo/one-hundred HTTP/1.1\r\nHost: h\r\n\r\n",
        b"one-hundred",
        "open",
    ),
    (
        ONE,
        b"GET /_groupcache/echo/o/e HTTP/1.1\r\nHost: h\r\n\r\n",
        b"o/e",
        "open",
    ),
    (
        ONE,
        b"GET /_groupcache/echo/ HTTP/1.1\r\nHost: h\r\n\r\n",
        b"",
        "open",
    ),
    (
        ONE,
        b"GET /_groupcache/echo/o%6Ee HTTP/1.1\r\nHost: h\r\n\r\n",
        b"one",
        "open",
    ),
    (
        ONE,
        b"GET /_groupcache/echo/o%6Gee HTTP/1.1\r\nHost: h\r\n\r\n",
        b"",
        "refused",
    ),
    (
        ONE,
        b"GET /_groupcache/echo/one?two HTTP/1.1\r\nHost: h\r\n\r\n",
        b"one",
        "open",
    ),
    (
        ONE,
        b"GET /_groupcache/echo/o ne HTTP/1.1\r\nHost: h\r\n\r\n",
        b"",
        "refused",
    ),
    (
        ONE,
        b"GET /_groupcache/echo/on\xC3 HTTP/1.1\r\nHost: h\r\n\r\n",
        b"",
        "refused",
    ),
    (
        ONE,
        b"GET /_groupcache/echo/on\x7F HTTP/1.1\r\nHost: h\r\n\r\n",
        b"",
        "refused",
    ),
    (
        ONE,
        b"GET /_groupcache/echo/two HTTP/1.1\r\nHost: i\r\n\r\n",
        b"two",
        "open",
    ),
    (
        ONE,
        b"GET /_groupcache/echo/two HTTP/1.1\r\nHost: h\r\n\rX",
        b"",
        "unfinished",
    ),
    (
        ONE,
        b"GET /_groupcache/square/one HTTP/1.1\r\nHost: h\r\n\r\n",
        b"",
        "another group",
    ),
    (
        ONE,
        b"GET /_groupcache/none/one HTTP/1.1\r\nHost: h\r\n\r\n",
        b"",
        "refused",
    ),
    (
        ONE,
        b"PUT /_groupcache/echo/one HTTP/1.1\r\nHost: h\r\n\r\n",
        b"",
        "refused",
    ),
    (
        ONE,
        b"\r\nGET /_groupcache/echo/one HTTP/1.1\r\nHost: h\r\n\r\n",
        b"one",
        "open",
    ),
    (
        b"\r\nGET /_groupcache/echo/one HTTP/1.1\r\nHost: h\r\n\r\n",
        ONE,
        b"one",
        "open",
    ),
    (ONE, BARE, b"one", "bare"),
    (BARE, ONE, b"one", "open"),
    (BARE, BARE, b"one", "bare"),
    (ONE, LAST, b"one", "closing"),
    (LAST, LAST, b"one", "closing"),
    (LAST, ONE, b"one", "open"),
    (OLDER, OLDER, b"one", "closing"),
    (OLDER, ONE, b"one", "open"),
    (ONE, BAD, b"", "refused"),
    (BAD, BAD, b"", "refused"),
    (BAD, ONE, b"one", "open"),
    (ESCAPED, ESCAPED, b"one", "open"),
    (ABSOLUTE, ABSOLUTE, b"one", "open"),
];

// A word for what a head of so many bytes asks for, if it is this key of `echo`, the group 0 of the source for demonstrations.
fn word_of(next: &Option<Next<LentWish<'_>>>, key: &[u8], len: usize) -> &'static str {
    let Some(next) = next else {
        return "unfinished";
    };
    if next.len != len {
        return "another length";
    }
    match &next.wish.body {
        LentBody::Fault(_fault) => "refused",
        LentBody::Get(group, _place) if group.number != 0 => "another group",
        LentBody::Get(_group, place) if place.key() != key => "another key",
        LentBody::Get(_group, _place) => match (next.wish.closing, next.wish.bare) {
            (false, false) => "open",
            (false, true) => "bare",
            (true, false) => "closing",
            (true, true) => "bare and closing",
        },
    }
}

// The same of the second head, behind the first.
fn second_word(
    alloc: Global,
    first: &[u8],
    second: &[u8],
    key: &[u8],
) -> Result<&'static str, AllocError> {
    let source = DemoSource;
    let mut names = HeadNames::new(Names::of(&source));
    let mut places = FieldPlaces::new();
    let _ = names.next_wish(alloc, first, &mut places)?;
    let next = names.next_wish(alloc, second, &mut places)?;
    Ok(word_of(&next, key, second.len()))
}

#[test]
fn a_head_asks_for_its_own_key_behind_any_other(rt: HostRuntime) -> Result<(), Fail> {
    for (first, second, key, word) in ROWS {
        let seen = second_word(rt.alloc(), first, second, key)?;
        assert_eq!(rt; seen, word, "{second:?} behind {first:?}");
    }
    Ok(())
}

#[test]
fn a_head_like_the_last_one_is_unfinished_up_to_its_last_byte(rt: HostRuntime) -> Result<(), Fail> {
    for at in 0..ONE.len() {
        let seen = second_word(rt.alloc(), ONE, &ONE[..at], b"one")?;
        assert_eq!(rt; seen, "unfinished", "{at}");
    }
    Ok(())
}
