//! Ends of connections: cuts at every place, and devices that fail there.

use super::demos::{Failing, alone, demo, is_served_over, is_told};
use super::runs::{READS, add_piece, by_bytes, demand, whole};
use peer_conn::End;
use std::process::Abort;
use std::sync::Wait;
use std::thread::Threads;

/// Two requests of 45 bytes.
pub const TWO: &[u8; 90] =
    b"GET /_groupcache/echo/a HTTP/1.1\r\nHost: h\r\n\r\nGET /_groupcache/echo/b HTTP/1.1\r\nHost: h\r\n\r\n";

/// Their replies, of 79 bytes each.
pub const TWO_REPLIES: &[u8; 158] =
    b"HTTP/1.1 200 OK\r\nContent-Type: application/x-protobuf\r\nContent-Length: 3\r\n\r\n\x0A\x01aHTTP/1.1 200 OK\r\n\
    Content-Type: application/x-protobuf\r\nContent-Length: 3\r\n\r\n\x0A\x01b";

/// Three requests of 45 bytes.
pub const THREE: &[u8; 135] =
    b"GET /_groupcache/echo/a HTTP/1.1\r\nHost: h\r\n\r\nGET /_groupcache/echo/b HTTP/1.1\r\nHost: h\r\n\r\n\
    GET /_groupcache/echo/c HTTP/1.1\r\nHost: h\r\n\r\n";

/// Their replies, of 79 bytes each.
pub const THREE_REPLIES: &[u8; 237] =
    b"HTTP/1.1 200 OK\r\nContent-Type: application/x-protobuf\r\nContent-Length: 3\r\n\r\n\x0A\x01aHTTP/1.1 200 OK\r\n\
    Content-Type: application/x-protobuf\r\nContent-Length: 3\r\n\r\n\x0A\x01bHTTP/1.1 200 OK\r\n\
    Content-Type: application/x-protobuf\r\nContent-Length: 3\r\n\r\n\x0A\x01c";

/// A text in three pieces, or in its shorter parts where the places are past its end.
pub fn thirds(
    rt: &(impl Abort + AllocGlobal),
    text: &[u8],
    first: usize,
    second: usize,
) -> Vec<Vec<u8>> {
    let mut pieces = Vec::new(rt.alloc());
    let (head, rest) = text.split_at(first.min(text.len()));
    let (middle, tail) = rest.split_at(second.min(rest.len()));
    add_piece(rt, &mut pieces, head);
    add_piece(rt, &mut pieces, middle);
    add_piece(rt, &mut pieces, tail);
    pieces
}

// The second cut is behind a byte or two, and round the end of a head that the first cut begins.
#[test]
fn cuts_change_nothing(rt: HostRuntime) {
    for first in 0..=135 {
        for second in [1, 2, 44, 45, 46] {
            let pieces = thirds(&rt, THREE, first, second);
            demand(&rt, pieces, THREE_REPLIES, End::Clean);
        }
    }
}

// How a text ends that was cut behind so many bytes of the three requests.
fn end_at(count: usize) -> End {
    if count % 45 == 0 {
        End::Clean
    } else {
        End::Cut
    }
}

// Whether a connection whose device fails so writes this and ends so, in one piece and byte by byte, in one thread and over a pool.
fn is_told_each_way(
    rt: &(impl Abort + AllocGlobal + Threads + Wait + Sync),
    text: &[u8],
    failing: Failing,
    told: (&[u8], End),
) -> bool {
    let one = alone(rt.alloc(), whole(rt, text), failing, READS);
    let each = alone(rt.alloc(), by_bytes(rt, text), failing, READS);
    is_told(&one, told.0, told.1)
        && is_told(&each, told.0, told.1)
        && is_served_over(rt, demo(2, 0), whole(rt, text), failing, told)
        && is_served_over(rt, demo(2, 4), by_bytes(rt, text), failing, told)
}

// Within the first head, and round the ends of all.
const COUNTS: [usize; 24] = [
    0, 1, 2, 3, 4, 15, 16, 31, 32, 33, 34, 41, 42, 43, 44, 45, 46, 47, 89, 90, 91, 133, 134, 135,
];

// The client ends behind so many bytes, or the reader fails there.
#[test]
fn each_beginning_gets_its_whole_replies(rt: HostRuntime) {
    let mut right = true;
    for count in COUNTS {
        let (text, _) = THREE.as_slice().split_at(count);
        let (replies, _) = THREE_REPLIES.as_slice().split_at(count / 45 * 79);
        right &= is_told_each_way(&rt, text, Failing::Nothing, (replies, end_at(count)));
        right &= is_told_each_way(&rt, text, Failing::Reader, (replies, End::ReadFault));
    }
    assert!(rt; right);
}

// Within the first reply, and round the ends of all.
const LIMITS: [usize; 14] = [0, 1, 7, 10, 14, 77, 78, 79, 80, 157, 158, 159, 235, 236];

#[test]
fn a_writer_fails_at_each_limit(rt: HostRuntime) {
    let clean = (THREE_REPLIES.as_slice(), End::Clean);
    let mut right = is_told_each_way(&rt, THREE, Failing::Writer(237), clean);
    for limit in LIMITS {
        let (replies, _) = THREE_REPLIES.as_slice().split_at(limit);
        right &= is_told_each_way(
            &rt,
            THREE,
            Failing::Writer(limit),
            (replies, End::WriteFault),
        );
    }
    assert!(rt; right);
}
