//! Replies come in the order of their requests, whatever the order of their fills.

use super::demos::{Failing, is_told, over_pieces};
use super::ends::{TWO, TWO_REPLIES};
use super::runs::{halves, whole};
use super::sources::{Watch, watching};
use peer_conn::End;
use peer_fill::{Gate, Report};
use peer_source::GroupId;
use std::process::Abort;
use std::sync::Wait;
use std::sync::atomic::AtomicU64;
use std::sync::atomic::Ordering::SeqCst;
use std::thread::Threads;
use test_support::{Step, all_called};

/// Holds the call for the key `a` back until the fill for the key `b` was put, and counts the calls for each.
#[derive(Drop)]
pub struct Holding {
    put: Step,
    for_a: AtomicU64,
    for_b: AtomicU64,
}

impl Holding {
    pub const fn new() -> Holding {
        Holding {
            put: Step::new(),
            for_a: AtomicU64::new(0),
            for_b: AtomicU64::new(0),
        }
    }
}

impl Gate for Holding {
    fn after_take<R: Wait>(&self, _rt: &R, _group: GroupId, key: &[u8]) {
        if key == b"a".as_slice() {
            self.for_a.fetch_add(1, SeqCst);
            self.put.wait();
        }
        if key == b"b".as_slice() {
            self.for_b.fetch_add(1, SeqCst);
        }
    }

    fn after_put<R: Wait>(&self, _rt: &R, _number: u64, _group: GroupId, key: &[u8]) {
        if key == b"b".as_slice() {
            self.put.tell();
        }
    }
}

// What became of a connection, and what was counted.
#[derive(Clone, Copy, Debug, PartialEq, Eq)]
struct Seen {
    // Whether both replies were written in order, and the connection ended between two heads.
    told: bool,
    report: Report,
    // How often the gate saw a call for each key.
    gate: [u64; 2],
    // How often the source was called.
    called: u64,
    expired: bool,
}

// What is seen of these pieces over two workers.
fn serve_held(
    rt: &(impl Abort + AllocGlobal + Threads + Wait + Sync),
    pieces: Vec<Vec<u8>>,
) -> Seen {
    let gate = Holding::new();
    let watch = Watch::new();
    let run = over_pieces(rt, watching(&watch, 0, &gate), pieces, Failing::Nothing);
    Seen {
        told: is_told(&run.served, TWO_REPLIES, End::Clean),
        report: run.report,
        gate: [gate.for_a.load(SeqCst), gate.for_b.load(SeqCst)],
        called: watch.calls.load(SeqCst),
        expired: gate.put.has_expired(),
    }
}

#[test]
fn a_later_fill_waits_for_an_earlier_one(rt: HostRuntime) {
    let expected = Seen {
        told: true,
        report: all_called(2),
        gate: [1, 1],
        called: 2,
        expired: false,
    };
    assert_eq!(rt; serve_held(&rt, whole(&rt, TWO)), expected);
    assert_eq!(rt; serve_held(&rt, halves(&rt, TWO, 45)), expected);
}
