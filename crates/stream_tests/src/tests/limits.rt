//! The limit of a head, skipped pairs included, and the limit of its fields.

use super::runs::{demand_all_ways, demand_each};
use peer_conn::End;
use std::alloc::{AllocError, Global};
use stream_model::{FOUND_K, TOO_LONG, Then, Told, add_repeated, joined, repeated, reply};

// So many pairs, and then a request whose field `Pad` has so many letters.
fn padded(alloc: Global, pairs: usize, letters: usize) -> Result<Vec<u8>, AllocError> {
    let mut text = repeated(alloc, b"\r\n", pairs)?;
    text.extend_from_slice(b"GET /_groupcache/echo/k HTTP/1.1\r\nHost: h\r\nPad: ")?;
    add_repeated(&mut text, b"a", letters)?;
    text.extend_from_slice(b"\r\n\r\n")?;
    Ok(text)
}

// A request with a `Host` and so many further fields.
fn with_fields(alloc: Global, count: usize) -> Result<Vec<u8>, AllocError> {
    let fields = repeated(alloc, b"X: y\r\n", count)?;
    joined(
        alloc,
        &[
            b"GET /_groupcache/echo/k HTTP/1.1\r\nHost: h\r\n".as_slice(),
            fields.as_slice(),
            b"\r\n".as_slice(),
        ],
    )
}

#[test]
fn pairs_are_no_request_and_count_for_the_limit(rt: HostRuntime) {
    let most = repeated(rt.alloc(), b"\r\n", 8191).expect(&rt, "memory");
    let more = repeated(rt.alloc(), b"\r\n", 8192).expect(&rt, "memory");
    demand_each(
        &rt,
        &[
            (b"", b""),
            (b"\r\n\r\n\r\n", b""),
            (&most, b""),
            (&more, TOO_LONG),
        ],
    );
    demand_all_ways(&rt, b"\r", b"", End::Cut);
}

// The last one is twice as long: the limit counts anew behind a head.
#[test]
fn a_head_has_16384_bytes_at_most(rt: HostRuntime) {
    for (pairs, letters, length, replies) in [
        (0, 16_332, 16_384, FOUND_K),
        (1, 16_330, 16_384, FOUND_K),
        (0, 16_333, 16_385, TOO_LONG),
        (1, 16_331, 16_385, TOO_LONG),
    ] {
        let text = padded(rt.alloc(), pairs, letters).expect(&rt, "memory");
        assert_eq!(rt; text.len(), length);
        demand_each(&rt, &[(&text, replies)]);
    }
    let long = padded(rt.alloc(), 0, 16_332).expect(&rt, "memory");
    let text = repeated(rt.alloc(), &long, 2).expect(&rt, "memory");
    let replies = repeated(rt.alloc(), FOUND_K, 2).expect(&rt, "memory");
    demand_each(&rt, &[(&text, &replies)]);
}

#[test]
fn a_head_has_64_fields_at_most(rt: HostRuntime) {
    let most = with_fields(rt.alloc(), 63).expect(&rt, "memory");
    let more = with_fields(rt.alloc(), 64).expect(&rt, "memory");
    let told = Told::Text("400 Bad Request", b"bad head");
    let refused = reply(rt.alloc(), Then::Closes, told).expect(&rt, "memory");
    demand_each(&rt, &[(&most, FOUND_K), (&more, &refused)]);
}
