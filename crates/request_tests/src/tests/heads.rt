//! Worked heads, in one piece and byte by byte.
ghost use Rattle.std.specs.Prelude.{◌≡◌, ◌≤◌, ◌++◌, length, take};

use peer_head::{FieldPlaces, HeadBuf, HeadFault, HeadView, Look};
use std::alloc::{AllocError, Global};
use std::process::Abort;
use std::test::Fail;

// Puts all the bytes behind those held.
fn feed(buf: &mut HeadBuf, bytes: &[u8])
    requires { length bytes.now ≤ length buf.old.free }
    ensures held { buf.new.held ≡ buf.old.held ++ bytes.now }
{
    put(buf.room(), bytes);
    buf.filled(bytes.len());
}

// Writes the bytes to the front of the room.
fn put(room: &mut [u8], bytes: &[u8])
    requires { length bytes.now ≤ length room.old }
    ensures { take (length bytes.now) room.new ≡ bytes.now }
{
    room[..bytes.len()].copy_from_slice(bytes);
}

// A word for what was seen.
fn word_of(look: &Look) -> &'static str {
    match look {
        Look::Need => "need",
        Look::Head(view) => match (view.is_closing(), view.is_bare()) {
            (false, false) => "head",
            (false, true) => "bare head",
            (true, false) => "closing head",
            (true, true) => "bare closing head",
        },
        Look::Fault(HeadFault::Host, true) => "bare host",
        Look::Fault(_, true) => "bare fault",
        Look::Fault(HeadFault::TooLong, false) => "too long",
        Look::Fault(HeadFault::NotAHead, false) => "not a head",
        Look::Fault(HeadFault::TransferCoding, false) => "transfer coding",
        Look::Fault(HeadFault::BadLength, false) => "bad length",
        Look::Fault(HeadFault::Content, false) => "content",
        Look::Fault(HeadFault::Host, false) => "host",
    }
}

// A word for what is seen in the bytes held.
fn word_in(buf: &HeadBuf) -> &'static str {
    word_of(&buf.look(&mut FieldPlaces::new()).0)
}

// What a text is in one piece, by as much of it as there is room for.
fn look_whole(alloc: Global, text: &[u8]) -> Result<&'static str, AllocError> {
    let mut buf = HeadBuf::new(alloc)?;
    let room = buf.room().len();
    feed(&mut buf, &text[..text.len().min(room)]);
    Ok(word_in(&buf))
}

// The same in pieces of so many bytes, by the first look that needs no more.
fn look_by_pieces(alloc: Global, text: &[u8], size: usize) -> Result<&'static str, AllocError> {
    let mut buf = HeadBuf::new(alloc)?;
    let mut places = FieldPlaces::new();
    for piece in text.chunks(size.max(1)) {
        if piece.len() > buf.room().len() {
            return Ok("no room");
        }
        feed(&mut buf, piece);
        let word = word_of(&buf.look(&mut places).0);
        if word != "need" {
            return Ok(word);
        }
    }
    Ok("need")
}

#[test]
fn a_new_buffer_has_room(rt: HostRuntime) -> Result<(), Fail> {
    let mut buf = HeadBuf::new(rt.alloc())?;
    assert_eq!(rt; word_in(&buf), "need");
    assert!(rt; buf.rest().is_empty());
    assert_eq!(rt; buf.room().len(), 16384);
    Ok(())
}

// Puts the bytes in one by one, and says whether there was room for each, and each look before it needed more.
fn needs_all(buf: &mut HeadBuf, text: &[u8]) -> bool {
    let mut places = FieldPlaces::new();
    for b in text {
        if buf.room().is_empty() || word_of(&buf.look(&mut places).0) != "need" {
            return false;
        }
        feed(buf, &[*b]);
    }
    true
}

// Whether the head has this field.
fn has_field(view: &HeadView<'_>, i: usize, name: &[u8], value: &[u8]) -> bool {
    i < view.field_count() && view.field(i) == (name, value)
}

// Whether the head is of HTTP/1.1, keeps the connection open, and has this method and target and three fields.
fn is_open_head(view: &HeadView<'_>, method: &[u8], target: &[u8]) -> bool {
    view.method() == method
        && view.target() == target
        && view.version() == 1
        && view.field_count() == 3
        && !view.is_closing()
        && !view.is_bare()
}

// Whether a head is seen with the line, the first and the last field of `a_head_is_seen_at_its_last_byte`, and whether
// nothing is left behind it.
fn take_head(buf: &mut HeadBuf) -> Option<[bool; 4]> {
    let mut places = FieldPlaces::new();
    let (look, len) = buf.look(&mut places);
    let Look::Head(view) = look else {
        return None;
    };
    let has_line = is_open_head(&view, b"GET", b"/_groupcache/echo/k");
    let has_first = has_field(&view, 0, b"Host", b"10.0.0.2:8000");
    let has_last = has_field(&view, 2, b"Accept-Encoding", b"gzip");
    buf.drop_front(len);
    Some([has_line, has_first, has_last, buf.rest().is_empty()])
}

#[test]
fn a_head_is_seen_at_its_last_byte(rt: HostRuntime) -> Result<(), Fail> {
    let text = b"GET /_groupcache/echo/k HTTP/1.1\r\nHost: 10.0.0.2:8000\r\n\
          User-Agent: Go-http-client/1.1\r\nAccept-Encoding: gzip\r\n\r\n";
    let mut buf = HeadBuf::new(rt.alloc())?;
    assert!(rt; needs_all(&mut buf, text));
    assert_eq!(rt; take_head(&mut buf), Some([true; 4]));
    Ok(())
}

// Texts up to this length come byte by byte.
const SHORT: usize = 400;

// Checks what a text is, in one piece and byte by byte, or where it is long in small pieces.
fn check_text(rt: &impl Abort, alloc: Global, text: &[u8], word: &str) -> Result<(), AllocError> {
    assert_eq!(rt; look_whole(alloc, text)?, word, "{text:?}");
    let size = if text.len() <= SHORT { 1 } else { 64 };
    assert_eq!(rt; look_by_pieces(alloc, text, size)?, word, "{text:?}");
    Ok(())
}

// Texts and what each is, by the rule that says so.
const TEXTS: [(&[u8], &str); 34] = [
    // A head ends with its first empty line.
    (b"", "need"),
    (b"\r", "need"),
    (b"\r\n\r\n\r\n", "need"),
    (b"GET /k HTTP/1.1\r\nHost: h\r\n", "need"),
    (b"GET /k HTTP/1.1\r\nHost: h\r\n\r\n", "head"),
    (b"\r\n\r\nGET /k HTTP/1.1\r\nHost: h\r\n\r\n", "head"),
    (b"HEAD /k HTTP/1.1\r\nHost: h\r\n\r\n", "bare head"),
    (b"head /k HTTP/1.1\r\nHost: h\r\n\r\n", "head"),
    (b"POST /k HTTP/1.1\r\nHost: h\r\n\r\n", "head"),
    // A CR or an LF alone ends no line.
    (b"GET /k HTTP/1.1\nHost: h\n\n", "need"),
    (b"GET /k HTTP/1.1\nHost: h\r\n\r\n", "not a head"),
    (b"GET /k HTTP/1.1\r\nHost: h\nA: b\r\n\r\n", "not a head"),
    (b"GET /k HTTP/1.1\r\nHost: h\rA: b\r\n\r\n", "not a head"),
    (b"\nGET /k HTTP/1.1\r\nHost: h\r\n\r\n", "not a head"),
    // Targets are visible, and names have no space.
    (b"GET /\xff HTTP/1.1\r\nHost: h\r\n\r\n", "not a head"),
    (b"GET /\x7f HTTP/1.1\r\nHost: h\r\n\r\n", "not a head"),
    (b"GET /k HTTP/2.0\r\nHost: h\r\n\r\n", "not a head"),
    (b"GET /k HTTP/1.1\r\nHost : h\r\n\r\n", "not a head"),
    // A head has one host.
    (b"GET /k HTTP/1.1\r\n\r\n", "host"),
    (b"GET /k HTTP/1.1\r\nHost: h\r\nhost: h\r\n\r\n", "host"),
    (b"HEAD /k HTTP/1.1\r\n\r\n", "bare host"),
    (b"GET /k HTTP/1.0\r\n\r\n", "closing head"),
    (b"GET /k HTTP/1.0\r\nHost: h\r\n\r\n", "closing head"),
    (b"GET /k HTTP/1.0\r\nHost: h\r\nHOST: i\r\n\r\n", "host"),
    // `close` is an element of `Connection`.
    (
        b"GET /k HTTP/1.1\r\nHost: h\r\nConnection: Keep-Alive, CLOSE\r\n\r\n",
        "closing head",
    ),
    (
        b"GET /k HTTP/1.1\r\nHost: h\r\nConnection: keep-alive, closed\r\n\r\n",
        "head",
    ),
    (
        b"HEAD /k HTTP/1.1\r\nHost: h\r\nCONNECTION: a\r\nConnection:\tclose ,b\r\n\r\n",
        "bare closing head",
    ),
    // A head announces no content.
    (
        b"GET /k HTTP/1.1\r\nHost: h\r\nContent-Length: 00\r\n\r\n",
        "head",
    ),
    (
        b"GET /k HTTP/1.1\r\nHost: h\r\nContent-Length: +1\r\n\r\n",
        "bad length",
    ),
    (
        b"POST /k HTTP/1.1\r\nHost: h\r\nContent-Length: 3\r\n\r\n",
        "content",
    ),
    (
        b"GET /k HTTP/1.1\r\nHost: h\r\nContent-Length: 0\r\nContent-Length: 00\r\n\r\n",
        "bad length",
    ),
    (
        b"GET /k HTTP/1.1\r\nHost: h\r\nContent-Length: 0, 0\r\n\r\n",
        "bad length",
    ),
    (
        b"GET /k HTTP/1.1\r\nContent-Length: 5\r\nTransfer-Encoding: chunked\r\n\r\n",
        "transfer coding",
    ),
    (
        b"HEAD /k HTTP/1.1\r\nHost: h\r\nContent-Length:\r\n\r\n",
        "bare fault",
    ),
];

#[test]
fn each_text_is_what_its_rule_says(rt: HostRuntime) -> Result<(), Fail> {
    for (text, word) in TEXTS {
        check_text(&rt, rt.alloc(), text, word)?;
    }
    Ok(())
}

// Puts a piece behind the text so many times.
fn put_times(text: &mut Vec<u8>, piece: &[u8], count: usize) -> Result<(), AllocError> {
    for _ in 0..count {
        text.extend_from_slice(piece)?;
    }
    Ok(())
}

// So many pairs, and a head with a field of so many letters.
fn long_head(alloc: Global, pairs: usize, letters: usize) -> Result<Vec<u8>, AllocError> {
    let mut text = Vec::new(alloc);
    put_times(&mut text, b"\r\n", pairs)?;
    text.extend_from_slice(b"GET /_groupcache/echo/k HTTP/1.1\r\nHost: h\r\nPad: ")?;
    put_times(&mut text, b"a", letters)?;
    text.extend_from_slice(b"\r\n\r\n")?;
    Ok(text)
}

#[test]
fn the_limit_counts_the_pairs(rt: HostRuntime) -> Result<(), Fail> {
    let rows = [
        (0, 16332, "head"),
        (0, 16333, "too long"),
        (1, 16330, "head"),
        (1, 16331, "too long"),
    ];
    for (pairs, letters, word) in rows {
        let text = long_head(rt.alloc(), pairs, letters)?;
        check_text(&rt, rt.alloc(), &text, word)?;
    }
    Ok(())
}

#[test]
fn pairs_alone_are_too_long_in_the_end(rt: HostRuntime) -> Result<(), Fail> {
    for (pairs, word) in [(8191, "need"), (8192, "too long")] {
        let mut text = Vec::new(rt.alloc());
        put_times(&mut text, b"\r\n", pairs)?;
        check_text(&rt, rt.alloc(), &text, word)?;
    }
    Ok(())
}

#[test]
fn a_head_has_64_fields_at_most(rt: HostRuntime) -> Result<(), Fail> {
    for (more, word) in [(63, "head"), (64, "not a head")] {
        let mut text = b"GET /k HTTP/1.1\r\nHost: h\r\n".to_vec(rt.alloc())?;
        put_times(&mut text, b"Name: value\r\n", more)?;
        text.extend_from_slice(b"\r\n")?;
        check_text(&rt, rt.alloc(), &text, word)?;
    }
    Ok(())
}

// Takes the heads that are there, and counts those whose target is the next one.
fn take_heads(buf: &mut HeadBuf, targets: &[&[u8]], mut taken: usize) -> usize {
    let mut places = FieldPlaces::new();
    for _ in 0..4 {
        let (look, len) = buf.look(&mut places);
        let Look::Head(view) = look else {
            return taken;
        };
        if targets.get(taken).copied() != Some(view.target()) {
            return taken;
        }
        taken = taken.saturating_add(1);
        buf.drop_front(len);
    }
    taken
}

// Puts a piece behind the bytes held, and takes the heads that are there.
fn take_piece(buf: &mut HeadBuf, piece: &[u8], targets: &[&[u8]], taken: usize) -> usize {
    if piece.len() > buf.room().len() {
        return taken;
    }
    feed(buf, piece);
    take_heads(buf, targets, taken)
}

// Whether all the heads of a text are taken, and nothing is left, where it comes cut at two places.
fn are_all_taken(
    alloc: Global,
    text: &[u8],
    targets: &[&[u8]],
    cuts: (usize, usize),
) -> Result<bool, AllocError>
    requires order { cuts.0 ≤ cuts.1 }
    requires within { cuts.1 ≤ length text.now }
{
    let mut buf = HeadBuf::new(alloc)?;
    let taken = take_piece(&mut buf, &text[..cuts.0], targets, 0);
    let taken = take_piece(&mut buf, &text[cuts.0..cuts.1], targets, taken);
    let taken = take_piece(&mut buf, &text[cuts.1..], targets, taken);
    Ok(taken == targets.len() && buf.rest().is_empty())
}

// The second cut is at some places of each head, and at and round the ends of all.
#[test]
fn requests_are_cut_at_many_pairs_of_places(rt: HostRuntime) -> Result<(), Fail> {
    let text = b"GET /_groupcache/echo/a HTTP/1.1\r\nHost: h\r\n\r\n\
          GET /_groupcache/echo/b HTTP/1.1\r\nHost: h\r\n\r\n\
          GET /_groupcache/echo/c HTTP/1.1\r\nHost: h\r\n\r\n"
        .as_slice();
    let targets = [
        b"/_groupcache/echo/a".as_slice(),
        b"/_groupcache/echo/b",
        b"/_groupcache/echo/c",
    ];
    for first in 0..=text.len() {
        for second in first..=text.len() {
            if second % 9 != 0 && second % 45 != 44 && second % 45 != 1 {
                continue;
            }
            let all = are_all_taken(rt.alloc(), text, &targets, (first, second))?;
            assert!(rt; all, "cut at {first} and {second}");
        }
    }
    Ok(())
}
