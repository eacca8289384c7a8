//! What each kind of reply gives.
use super::driven::{End, ONE_PIECE, comes_to, fetch};
use peer_origin::{Failure, FetchFault};
use std::alloc::{AllocError, Global};

// Whether a text with this end comes to this, in one piece and byte by byte.
fn gives_at(alloc: Global, text: &[u8], end: End, want: Result<&[u8], Failure>) -> bool {
    comes_to(alloc, text, ONE_PIECE, end, want) && comes_to(alloc, text, 1, end, want)
}

// Whether a text gives this value, whatever comes behind it.
fn gives(alloc: Global, text: &[u8], value: &[u8]) -> bool {
    gives_at(alloc, text, End::Closed, Ok(value)) && gives_at(alloc, text, End::Failed, Ok(value))
}

// Whether a text fails with this, whatever comes behind it.
fn fails(alloc: Global, text: &[u8], failure: Failure) -> bool {
    gives_at(alloc, text, End::Closed, Err(failure))
        && gives_at(alloc, text, End::Failed, Err(failure))
}

// Whole replies with this value.
const WHOLE: [&[u8]; 5] = [
    b"HTTP/1.1 200 OK\r\nContent-Length: 5\r\n\r\nvalue",
    b"HTTP/1.0 200 OK\r\nContent-Length: 5\r\n\r\nvalue",
    b"HTTP/1.1 200 OK\r\nTransfer-Encoding: chunked\r\n\r\n5\r\nvalue\r\n0\r\n\r\n",
    b"HTTP/1.1 200 OK\r\nTransfer-Encoding: chunked\r\n\r\n2;a=b\r\nva\r\n003\r\nlue\r\n0\r\nX-Sum: 1\r\n\r\n",
    b"HTTP/1.1 103 Early Hints\r\nLink: </a>\r\n\r\nHTTP/1.1 100 Continue\r\n\r\nHTTP/1.1 200 OK\r\nContent-Length: 5\r\n\r\nvalue",
];

#[test]
fn gives_whole_bodies(rt: HostRuntime) {
    for text in WHOLE {
        assert!(rt; gives(rt.alloc(), text, b"value"), "{text:?}");
    }
    let empty = b"HTTP/1.1 200 OK\r\nContent-Length: 0\r\n\r\n";
    assert!(rt; gives(rt.alloc(), empty, b""));
}

#[test]
fn gives_a_body_until_the_close_only_where_that_is_told(rt: HostRuntime) {
    let alloc = rt.alloc();
    let text = b"HTTP/1.1 200 OK\r\nConnection: close\r\n\r\nvalue";
    let lost = Failure::Fetch(FetchFault::Lost);
    assert!(rt; gives_at(alloc, text, End::Closed, Ok(b"value")));
    assert!(rt; gives_at(alloc, text, End::Failed, Err(lost)));
}

#[test]
fn is_silent_only_where_nothing_came(rt: HostRuntime) {
    let alloc = rt.alloc();
    assert!(rt; fails(alloc, b"", Failure::Silent));
    assert!(rt; fails(alloc, b"H", Failure::Fetch(FetchFault::Lost)));
}

// Texts that give no value, and what each fails with.
const FAILURES: [(&[u8], FetchFault); 19] = [
    // Another status.
    (
        b"HTTP/1.1 404 Not Found\r\nContent-Length: 4\r\n\r\nnone",
        FetchFault::Status(404),
    ),
    (
        b"HTTP/1.1 503 Busy\r\nContent-Length: 100\r\n\r\ncut",
        FetchFault::Status(503),
    ),
    (b"HTTP/1.1 204 No Content\r\n\r\n", FetchFault::Status(204)),
    (
        b"HTTP/1.1 301 Moved\r\nLocation: /other\r\nContent-Length: 0\r\n\r\n",
        FetchFault::Status(301),
    ),
    (
        b"HTTP/1.1 206 Partial Content\r\nContent-Length: 2\r\n\r\nva",
        FetchFault::Status(206),
    ),
    // A reply that was cut.
    (b"HTTP/1.1 200 OK\r\nContent-Le", FetchFault::Lost),
    (
        b"HTTP/1.1 200 OK\r\nContent-Length: 6\r\n\r\nvalue",
        FetchFault::Lost,
    ),
    (
        b"HTTP/1.1 200 OK\r\nTransfer-Encoding: chunked\r\n\r\n5\r\nvalue\r\n",
        FetchFault::Lost,
    ),
    (
        b"HTTP/1.1 200 OK\r\nTransfer-Encoding: chunked\r\n\r\n5\r\nvalue\r\n0\r\n",
        FetchFault::Lost,
    ),
    (b"HTTP/1.1 103 Early Hints\r\n\r\n", FetchFault::Lost),
    // No reply.
    (
        b"HTTP/2.0 200 OK\r\nContent-Length: 1\r\n\r\nx",
        FetchFault::Malformed,
    ),
    (b"\x00\x01 no reply\r\n\r\n", FetchFault::Malformed),
    (
        b"HTTP/1.1 200 OK\nContent-Length: 1\n\nx",
        FetchFault::Malformed,
    ),
    (
        b"HTTP/1.1 200 OK\r\nContent-Length: 1\r\nContent-Length: 2\r\n\r\nxy",
        FetchFault::Malformed,
    ),
    (
        b"HTTP/1.1 200 OK\r\nContent-Length: 1\r\nTransfer-Encoding: chunked\r\n\r\n0\r\n\r\n",
        FetchFault::Malformed,
    ),
    (
        b"HTTP/1.1 200 OK\r\nTransfer-Encoding: gzip\r\n\r\nx",
        FetchFault::Malformed,
    ),
    (
        b"HTTP/1.1 200 OK\r\nTransfer-Encoding: gzip, chunked\r\n\r\n1\r\nx\r\n0\r\n\r\n",
        FetchFault::Malformed,
    ),
    (
        b"HTTP/1.1 200 OK\r\nTransfer-Encoding: chunked\r\n\r\nzz\r\nx\r\n0\r\n\r\n",
        FetchFault::Malformed,
    ),
    (
        b"HTTP/1.1 101 Switching Protocols\r\nUpgrade: x\r\n\r\n",
        FetchFault::Malformed,
    ),
];

#[test]
fn gives_nothing_else(rt: HostRuntime) {
    for (text, fault) in FAILURES {
        assert!(rt; fails(rt.alloc(), text, Failure::Fetch(fault)), "{text:?}");
    }
}

// A reply with so many fields, each with so many bytes in its value.
fn reply_with(alloc: Global, fields: usize, bytes: usize) -> Result<Vec<u8>, AllocError> {
    let mut text = b"HTTP/1.1 200 OK\r\nContent-Length: 1\r\n".to_vec(alloc)?;
    for _ in 0..fields {
        text.extend_from_slice(b"x: ")?;
        for _ in 0..bytes {
            text.push(b'y')?;
        }
        text.extend_from_slice(b"\r\n")?;
    }
    text.extend_from_slice(b"\r\nv")?;
    Ok(text)
}

// Whether a reply with so many fields of so many bytes gives its value, or is refused.
fn head_is(alloc: Global, fields: usize, bytes: usize, taken: bool) -> Result<bool, AllocError> {
    let text = reply_with(alloc, fields, bytes)?;
    let malformed = Failure::Fetch(FetchFault::Malformed);
    let want = if taken {
        Ok(b"v".as_slice())
    } else {
        Err(malformed)
    };
    Ok(comes_to(alloc, &text, ONE_PIECE, End::Closed, want))
}

#[test]
fn takes_heads_within_their_limits(rt: HostRuntime) -> Result<(), AllocError> {
    let alloc = rt.alloc();
    assert!(rt; head_is(alloc, 127, 1, true)?);
    assert!(rt; head_is(alloc, 128, 1, false)?);
    assert!(rt; head_is(alloc, 1, 16_000, true)?);
    assert!(rt; head_is(alloc, 1, 16_400, false)?);
    Ok(())
}

// A body of so many bytes in one chunk, whose size is written like this.
fn chunk_of(alloc: Global, size: &[u8], bytes: usize) -> Result<Vec<u8>, AllocError> {
    let mut text = b"HTTP/1.1 200 OK\r\nTransfer-Encoding: chunked\r\n\r\n".to_vec(alloc)?;
    text.extend_from_slice(size)?;
    text.extend_from_slice(b"\r\n")?;
    for _ in 0..bytes {
        text.push(b'v')?;
    }
    text.extend_from_slice(b"\r\n0\r\n\r\n")?;
    Ok(text)
}

// How long the value of a text is, none where there is none.
fn length_of(alloc: Global, text: &[u8]) -> Option<Result<usize, Failure>> {
    let fetched = fetch(alloc, text, ONE_PIECE, End::Closed)?;
    Some(match &fetched.value {
        Ok(value) => Ok(value.len()),
        Err(failure) => Err(*failure),
    })
}

#[test]
fn takes_values_of_a_mebibyte_at_most(rt: HostRuntime) -> Result<(), AllocError> {
    let alloc = rt.alloc();
    let too_long = Failure::Fetch(FetchFault::TooLong);
    let whole = chunk_of(alloc, b"100000", 1_048_576)?;
    assert!(rt; length_of(alloc, &whole) == Some(Ok(1_048_576)));
    let over = chunk_of(alloc, b"100001", 1_048_577)?;
    assert!(rt; length_of(alloc, &over) == Some(Err(too_long)));
    let told = b"HTTP/1.1 200 OK\r\nContent-Length: 1048577\r\n\r\n";
    assert!(rt; length_of(alloc, told) == Some(Err(too_long)));
    Ok(())
}
