//! Connections in one thread, and over pools of 1, 2 and 16 workers: reads that are used up, and devices that fail.

use super::closing::{ASK_A_LAST, FOUND_A_LAST};
use super::demos::{Failing, alone, demo, is_told, within};
use super::ends::{THREE, THREE_REPLIES, TWO, TWO_REPLIES};
use super::runs::{READS, cut};
use super::values::GO_REQUEST;
use peer_conn::End;
use std::process::Abort;
use std::sync::Wait;
use std::thread::Threads;
use stream_model::{ASK_K, FOUND_K, TOO_LONG, repeated};

// A text and how many bytes of it a read gives, how many reads there may be, and which device fails; what is written
// then and how the connection ends.
#[derive(Clone, Copy)]
struct Case<'a> {
    text: &'a [u8],
    size: usize,
    reads: u64,
    failing: Failing,
    replies: &'a [u8],
    end: End,
}

// Whether a connection does as the case says, in one thread and over pools of 1, 2 and 16 workers.
fn is_right(rt: &(impl Abort + AllocGlobal + Threads + Wait + Sync), case: &Case<'_>) -> bool {
    let pieces = cut(rt, case.text, case.size);
    let served = alone(rt.alloc(), pieces, case.failing, case.reads);
    let mut right = is_told(&served, case.replies, case.end);
    for workers in [1, 2, 16] {
        let pieces = cut(rt, case.text, case.size);
        let run = within(rt, demo(workers, 0), pieces, case.failing, case.reads);
        right &= is_told(&run.served, case.replies, case.end);
    }
    right
}

// A request in one piece.
const ONE: Case<'static> = Case {
    text: GO_REQUEST,
    size: 4096,
    reads: READS,
    failing: Failing::Nothing,
    replies: FOUND_K,
    end: End::Clean,
};

// Reads that are used up. A writer that fails inside a reply, a reader that fails behind two requests, and one that would fail
// behind a closing request.
const CASES: [Case<'static>; 9] = [
    Case {
        reads: 0,
        failing: Failing::Reader,
        replies: b"",
        end: End::Spent,
        ..ONE
    },
    Case {
        reads: 1,
        end: End::Spent,
        ..ONE
    },
    Case { reads: 2, ..ONE },
    ONE,
    Case {
        text: THREE,
        reads: 1,
        replies: THREE_REPLIES,
        end: End::Spent,
        ..ONE
    },
    Case {
        text: THREE,
        reads: 2,
        replies: THREE_REPLIES,
        ..ONE
    },
    Case {
        failing: Failing::Writer(10),
        replies: b"HTTP/1.1 2",
        end: End::WriteFault,
        ..ONE
    },
    Case {
        text: TWO,
        failing: Failing::Reader,
        replies: TWO_REPLIES,
        end: End::ReadFault,
        ..ONE
    },
    Case {
        text: ASK_A_LAST,
        failing: Failing::Reader,
        replies: FOUND_A_LAST,
        ..ONE
    },
];

#[test]
fn reads_are_used_up_and_devices_fail(rt: HostRuntime) {
    for case in CASES {
        let length = case.text.len();
        let reads = case.reads;
        assert!(rt; is_right(&rt, &case), "{length} bytes with {reads} reads");
    }
}

#[test]
fn bytes_use_up_reads(rt: HostRuntime) {
    let text = repeated(rt.alloc(), ASK_K, 3).expect(&rt, "memory");
    for (reads, count) in [(100, 2), (90, 2), (89, 1), (0, 0)] {
        let replies = repeated(rt.alloc(), FOUND_K, count).expect(&rt, "memory");
        let case = Case {
            text: &text,
            size: 1,
            reads,
            replies: &replies,
            end: End::Spent,
            ..ONE
        };
        assert!(rt; is_right(&rt, &case), "{reads} reads");
    }
}

// Each read gives eight pairs.
#[test]
fn pairs_use_up_reads_and_the_limit(rt: HostRuntime) {
    let pairs = repeated(rt.alloc(), b"\r\n", 8200).expect(&rt, "memory");
    for (reads, replies, end) in [
        (1023, b"".as_slice(), End::Spent),
        (1024, TOO_LONG, End::Clean),
    ] {
        let case = Case {
            text: &pairs,
            size: 16,
            reads,
            replies,
            end,
            ..ONE
        };
        assert!(rt; is_right(&rt, &case), "{reads} reads");
    }
}
