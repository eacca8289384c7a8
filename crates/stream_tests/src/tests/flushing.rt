//! A reply goes out before the next read: its client may wait for it before it sends more.

use super::ends::{TWO, TWO_REPLIES};
use super::runs::{READS, halves};
use super::tellers::{Acting, BeforeCall};
use peer_conn::{End, serve_serial};
use peer_source::DemoSource;
use peer_view::{MemReader, MemWriter};
use std::sync::atomic::AtomicU64;
use std::sync::atomic::Ordering::SeqCst;

// How often a connection wrote and read, and how many of the reads came before all replies to what was read.
#[derive(Drop)]
struct Calls {
    writes: AtomicU64,
    reads: AtomicU64,
    early: AtomicU64,
}

// Each read brings one request, so that each but the first comes behind as many writes as there were reads.
#[derive(Drop)]
struct NextRead<'a> {
    calls: &'a Calls,
}

impl<'a> BeforeCall for NextRead<'a> {
    fn act(&self) {
        let before = self.calls.reads.fetch_add(1, SeqCst);
        if self.calls.writes.load(SeqCst) < before {
            self.calls.early.fetch_add(1, SeqCst);
        }
    }
}

#[derive(Drop)]
struct NextWrite<'a> {
    calls: &'a Calls,
}

impl<'a> BeforeCall for NextWrite<'a> {
    fn act(&self) {
        self.calls.writes.fetch_add(1, SeqCst);
    }
}

#[test]
fn each_reply_is_written_before_the_next_read(rt: HostRuntime) {
    let calls = Calls {
        writes: AtomicU64::new(0),
        reads: AtomicU64::new(0),
        early: AtomicU64::new(0),
    };
    let reader = Acting {
        device: MemReader::new(halves(&rt, TWO, 45), false),
        before: NextRead { calls: &calls },
    };
    let writer = Acting {
        device: MemWriter::new(rt.alloc(), 65_536, None),
        before: NextWrite { calls: &calls },
    };
    let served = serve_serial(rt.alloc(), &DemoSource, reader, writer, READS);
    assert_eq!(rt; served.end, End::Clean);
    assert_eq!(rt; served.writer.device.taken(), TWO_REPLIES.as_slice());
    let counts = [
        calls.reads.load(SeqCst),
        calls.writes.load(SeqCst),
        calls.early.load(SeqCst),
    ];
    assert_eq!(rt; counts, [3, 2, 0]);
}
