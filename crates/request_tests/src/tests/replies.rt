//! Replies and bodies, against the bytes that are written out.
use peer_reply::{Fault, HeadRoom, PbFault, Reply, read_response};
use peer_source::{DemoSource, Fill, GroupId};
use peer_view::ByteView;
use std::alloc::{AllocError, Global};

const VALUE: &[u8] = b"HTTP/1.1 200 OK\r\nContent-Type: application/x-protobuf\r\nContent-Length: ";

const TEXT: &[u8] =
    b"\r\nContent-Type: text/plain; charset=utf-8\r\nX-Content-Type-Options: nosniff\r\nContent-Length: ";

const OPEN: &[u8] = b"\r\n\r\n";

const CLOSING: &[u8] = b"\r\nConnection: close\r\n\r\n";

// The parts of a reply, joined.
fn text_of(alloc: Global, reply: &Reply<'_>) -> Result<Vec<u8>, AllocError> {
    let mut text = Vec::new(alloc);
    for part in &reply.parts() {
        text.extend_from_slice(part)?;
    }
    Ok(text)
}

// The text of the reply to a fault.
fn fault_text(
    alloc: Global,
    fault: &Fault,
    closing: bool,
    bare: bool,
) -> Result<Vec<u8>, AllocError> {
    let mut room = HeadRoom::new();
    text_of(alloc, &Reply::of_fault(&mut room, fault, closing, bare))
}

// The text of the reply to what the source for demonstrations answers, nothing where memory was refused. Its group 0
// is `echo`, 1 `square`, 2 `fill`.
fn fill_text(
    alloc: Global,
    number: usize,
    key: &[u8],
    closing: bool,
    bare: bool,
) -> Result<Vec<u8>, AllocError> {
    let key = ByteView::copy_of(alloc, key)?;
    let fill = Fill::run(alloc, &DemoSource, GroupId { number }, key);
    let mut room = HeadRoom::new();
    match Reply::of_fill(&mut room, &fill, closing, bare) {
        Some(reply) => text_of(alloc, &reply),
        None => Ok(Vec::new(alloc)),
    }
}

// What is left of a text behind these pieces, if it begins with them.
fn behind<'a>(text: &'a [u8], pieces: &[&[u8]]) -> Option<&'a [u8]> {
    let mut rest = text;
    for piece in pieces {
        rest = rest.strip_prefix(*piece)?;
    }
    Some(rest)
}

// Whether memory was had for the text of a reply, which has this head in pieces and this content.
fn is_reply(text: Result<Vec<u8>, AllocError>, head: &[&[u8]], content: &[u8]) -> bool {
    match text {
        Ok(text) => match behind(&text, head) {
            Some(rest) => rest == content,
            None => false,
        },
        Err(_) => false,
    }
}

#[test]
fn replies_with_a_value(rt: HostRuntime) {
    let alloc = rt.alloc();
    let open = fill_text(alloc, 0, b"k", false, false);
    assert!(rt; is_reply(open, &[VALUE, b"3", OPEN], b"\x0A\x01k"));
    let closing = fill_text(alloc, 0, b"k", true, false);
    assert!(rt; is_reply(closing, &[VALUE, b"3", CLOSING], b"\x0A\x01k"));
    let bare = fill_text(alloc, 0, b"k", false, true);
    assert!(rt; is_reply(bare, &[VALUE, b"3", OPEN], b""));
}

#[test]
fn replies_with_an_error_of_the_source(rt: HostRuntime) {
    let reply = fill_text(rt.alloc(), 1, b"x", false, false);
    let status = b"HTTP/1.1 500 Internal Server Error";
    assert!(rt; is_reply(reply, &[status, TEXT, b"13", OPEN], b"not a number\n"));
}

// Whether the reply with so many bytes `x` has this content length, and this before its value.
fn has_letters(alloc: Global, key: &[u8], length: &[u8], prefix: &[u8], count: usize) -> bool {
    match fill_text(alloc, 2, key, false, false) {
        Ok(text) => match behind(&text, &[VALUE, length, OPEN, prefix]) {
            Some(value) => value.len() == count && value.iter().all(|byte| *byte == b'x'),
            None => false,
        },
        Err(_) => false,
    }
}

#[test]
fn writes_the_shortest_length(rt: HostRuntime) {
    let alloc = rt.alloc();
    assert!(rt; has_letters(alloc, b"127", b"129", b"\x0A\x7F", 127));
    assert!(rt; has_letters(alloc, b"128", b"131", b"\x0A\x80\x01", 128));
    assert!(rt; has_letters(alloc, b"16383", b"16386", b"\x0A\xFF\x7F", 16383));
    assert!(rt; has_letters(alloc, b"16384", b"16388", b"\x0A\x80\x80\x01", 16384));
    assert!(rt;
        has_letters(
            alloc,
            b"1048576",
            b"1048580",
            b"\x0A\x80\x80\x40",
            1_048_576
        )
    );
}

// Whether the reply to a fault has this head in pieces, and this content where it is not bare.
fn replies(alloc: Global, fault: &Fault, closing: bool, head: &[&[u8]], content: &[u8]) -> bool {
    let whole = fault_text(alloc, fault, closing, false);
    let bare = fault_text(alloc, fault, closing, true);
    is_reply(whole, head, content) && is_reply(bare, head, b"")
}

// Whether the four replies to a fault have this status line, content length and content.
fn has_replies(alloc: Global, fault: Fault, status: &[u8], length: &[u8], content: &[u8]) -> bool {
    let open = [status, TEXT, length, OPEN];
    let closing = [status, TEXT, length, CLOSING];
    replies(alloc, &fault, false, &open, content) && replies(alloc, &fault, true, &closing, content)
}

// Whether a fault that is a bad request has this content, of this length.
fn is_bad(alloc: Global, fault: Fault, length: &[u8], content: &[u8]) -> bool {
    has_replies(alloc, fault, b"HTTP/1.1 400 Bad Request", length, content)
}

#[test]
fn replies_to_texts_that_are_no_heads(rt: HostRuntime) {
    let alloc = rt.alloc();
    let status = b"HTTP/1.1 431 Request Header Fields Too Large";
    assert!(rt; has_replies(alloc, Fault::TooLong, status, b"14", b"head too long\n"));
    assert!(rt; is_bad(alloc, Fault::NotAHead, b"9", b"bad head\n"));
}

#[test]
fn replies_to_refused_fields(rt: HostRuntime) {
    let alloc = rt.alloc();
    let status = b"HTTP/1.1 501 Not Implemented";
    let content = b"transfer coding not supported\n";
    assert!(rt; has_replies(alloc, Fault::TransferCoding, status, b"30", content));
    let status = b"HTTP/1.1 413 Content Too Large";
    assert!(rt;
        has_replies(
            alloc,
            Fault::Content,
            status,
            b"21",
            b"content not accepted\n"
        )
    );
    assert!(rt; is_bad(alloc, Fault::BadLength, b"19", b"bad content length\n"));
    assert!(rt; is_bad(alloc, Fault::Host, b"9", b"bad host\n"));
}

#[test]
fn replies_to_bad_targets(rt: HostRuntime) {
    let alloc = rt.alloc();
    assert!(rt; is_bad(alloc, Fault::Target, b"11", b"bad target\n"));
    assert!(rt; is_bad(alloc, Fault::Escape, b"11", b"bad escape\n"));
    assert!(rt; is_bad(alloc, Fault::NoKey, b"12", b"bad request\n"));
    let status = b"HTTP/1.1 404 Not Found";
    assert!(rt;
        has_replies(
            alloc,
            Fault::Outside,
            status,
            b"19",
            b"404 page not found\n"
        )
    );
}

#[test]
fn replies_to_unknown_groups(rt: HostRuntime) -> Result<(), AllocError> {
    let alloc = rt.alloc();
    let status = b"HTTP/1.1 404 Not Found";
    let nope = Fault::NoGroup(ByteView::copy_of(alloc, b"nope")?);
    assert!(rt; has_replies(alloc, nope, status, b"20", b"no such group: nope\n"));
    let empty = Fault::NoGroup(ByteView::copy_of(alloc, b"")?);
    assert!(rt; has_replies(alloc, empty, status, b"16", b"no such group: \n"));
    Ok(())
}

#[test]
fn replies_to_other_methods(rt: HostRuntime) {
    let alloc = rt.alloc();
    let head = b"HTTP/1.1 405 Method Not Allowed\r\nAllow: GET, HEAD\r\nContent-Length: 0";
    assert!(rt; replies(alloc, &Fault::Method, false, &[head, OPEN], b""));
    assert!(rt; replies(alloc, &Fault::Method, true, &[head, CLOSING], b""));
}

// Whether a body is read back as this value.
fn reads(body: &[u8], value: &[u8]) -> bool {
    match read_response(body) {
        Ok(found) => found == value,
        Err(_) => false,
    }
}

// Whether bytes are no body, for this fault.
fn is_refused(body: &[u8], fault: PbFault) -> bool {
    match read_response(body) {
        Ok(_) => false,
        Err(found) => found == fault,
    }
}

#[test]
fn reads_bodies_back(rt: HostRuntime) {
    assert!(rt; reads(b"\x0A\x01k", b"k"));
    assert!(rt; reads(b"\x0A\x00", b""));
}

#[test]
fn refuses_what_is_no_body(rt: HostRuntime) {
    for body in [
        b"".as_slice(),
        b"\x0A",
        b"\x0A\x80",
        b"\x0A\x02k",
        b"\x0A\x80\x80\x40",
    ] {
        assert!(rt; is_refused(body, PbFault::Truncated));
    }
    for body in [
        b"\x0A\x80\x00".as_slice(),
        b"\x0A\x81\x80\x40",
        b"\x0A\x80\x80\x80",
    ] {
        assert!(rt; is_refused(body, PbFault::Varint));
    }
    assert!(rt; is_refused(b"\x12\x00", PbFault::Tag));
    assert!(rt; is_refused(b"\x0A\x01k\x00", PbFault::Extra));
}
