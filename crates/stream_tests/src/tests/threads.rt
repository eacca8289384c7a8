//! Connections whose reader and writer are threads: what they ask for, and how they end.

use super::demos::{Failing, demo, is_told, over_pieces};
use super::pooled::Setup;
use super::runs::{cut, whole};
use peer_conn::End;
use peer_fill::Gate;
use peer_source::{DemoSource, GroupId};
use std::alloc::{AllocError, Global};
use std::sync::Wait;
use stream_model::{ASK_K, Then, Told, add_repeated, add_reply, add_request, repeated, request};
use test_support::{Step, all_called};

// Adds GET of a number of three digits of `echo`, and its reply.
fn add_number(
    alloc: Global,
    text: &mut Vec<u8>,
    replies: &mut Vec<u8>,
    number: u64,
) -> Result<(), AllocError> {
    let target = format!(in alloc; "/_groupcache/echo/{number}")?;
    add_request(text, target.as_str())?;
    let body = format!(in alloc; "\n\x03{number}")?;
    add_reply(alloc, replies, Then::Stays, Told::Value(body.as_bytes()))
}

#[test]
fn more_replies_than_places_come_in_order(rt: HostRuntime) {
    let mut text = Vec::new(rt.alloc());
    let mut replies = Vec::new(rt.alloc());
    for number in 100..300 {
        add_number(rt.alloc(), &mut text, &mut replies, number).expect(&rt, "memory");
    }
    let run = over_pieces(&rt, demo(2, 0), whole(&rt, &text), Failing::Nothing);
    assert!(rt; is_told(&run.served, &replies, End::Clean));
    assert_eq!(rt; (run.asked, run.report), (200, all_called(200)));
}

// The reader is ahead of the writer by a lane of 64 tickets, and by some 200 replies that are gathered.
#[test]
fn a_failed_write_stops_the_reader(rt: HostRuntime) {
    let text = repeated(rt.alloc(), ASK_K, 5000).expect(&rt, "memory");
    let pieces = cut(&rt, &text, ASK_K.len());
    let run = over_pieces(&rt, demo(1, 0), pieces, Failing::Writer(10));
    assert!(rt; is_told(&run.served, b"HTTP/1.1 2", End::WriteFault));
    let asked = run.asked;
    assert!(rt; asked < 1000, "{asked} asks");
}

// Holds the call for a long value back until the key `last` is called for.
#[derive(Drop)]
struct Holding {
    full: Step,
}

impl Gate for Holding {
    fn after_take<R: Wait>(&self, _rt: &R, _group: GroupId, key: &[u8]) {
        if key == b"9000".as_slice() {
            self.full.wait();
        }
        if key == b"last".as_slice() {
            self.full.tell();
        }
    }

    fn after_put<R: Wait>(&self, _rt: &R, _number: u64, _group: GroupId, _key: &[u8]) {}
}

// GET of a value that is too long to be buffered, then of 64 keys, then of `last`, then of 434 more.
fn beyond_a_lane(alloc: Global) -> Result<Vec<u8>, AllocError> {
    let mut text = request(alloc, "/_groupcache/fill/9000")?;
    add_repeated(&mut text, ASK_K, 64)?;
    add_request(&mut text, "/_groupcache/echo/last")?;
    add_repeated(&mut text, ASK_K, 434)?;
    Ok(text)
}

// A writer that met a fault goes on taking tickets: else the reader would wait for ever. When the first reply is
// written, the lane is full and the reader has a ticket more.
#[test]
fn tickets_are_taken_behind_a_failed_write(rt: HostRuntime) {
    let text = beyond_a_lane(rt.alloc()).expect(&rt, "memory");
    let gate = Holding { full: Step::new() };
    let setup = Setup {
        source: DemoSource,
        cache_bytes: 0,
        workers: 2,
        gate: &gate,
    };
    let run = over_pieces(&rt, setup, whole(&rt, &text), Failing::Writer(10));
    assert!(rt; is_told(&run.served, b"HTTP/1.1 2", End::WriteFault));
    assert!(rt; !gate.full.has_expired());
}
