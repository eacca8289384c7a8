//! A reader stops behind a failed write, also where no other request comes.

use super::demos::demo;
use super::pooled::{Devices, serve_pooled};
use super::runs::{READS, add_piece, whole};
use super::tellers::{Acting, BeforeCall, Telling};
use peer_conn::End;
use peer_view::{MemReader, MemWriter};
use std::process::Abort;
use std::sync::atomic::AtomicU64;
use std::sync::atomic::Ordering::SeqCst;
use std::thread::yield_now;
use stream_model::ASK_K;
use test_support::Step;

// The reads so far, and the first write, which fails.
#[derive(Drop)]
struct Watch {
    reads: AtomicU64,
    first_write: Step,
}

// Each read but the first waits for the first write, and then takes a while.
#[derive(Drop)]
struct LateReads<'a> {
    watch: &'a Watch,
}

impl<'a> BeforeCall for LateReads<'a> {
    fn act(&self) {
        if self.watch.reads.fetch_add(1, SeqCst) > 0 {
            self.watch.first_write.wait();
            for _ in 0..1000 {
                yield_now();
            }
        }
    }
}

// A request, and then 2,000 bytes of a head without an end, one a piece.
fn pieces(rt: &(impl Abort + AllocGlobal)) -> Vec<Vec<u8>> {
    let mut pieces = whole(rt, ASK_K);
    for _ in 0..2000 {
        add_piece(rt, &mut pieces, b"G");
    }
    pieces
}

#[test]
fn a_failed_write_stops_a_reader_that_gets_no_request(rt: HostRuntime) {
    let watch = Watch {
        reads: AtomicU64::new(0),
        first_write: Step::new(),
    };
    let devices = Devices {
        reader: Acting {
            device: MemReader::new(pieces(&rt), false),
            before: LateReads { watch: &watch },
        },
        writer: Acting {
            device: MemWriter::new(rt.alloc(), 4096, Some(0)),
            before: Telling {
                step: &watch.first_write,
            },
        },
        reads: READS,
    };
    let end = serve_pooled(&rt, demo(1, 0), devices).served.end;
    assert_eq!(rt; end, End::WriteFault);
    assert!(rt; !watch.first_write.has_expired());
    let reads = watch.reads.load(SeqCst);
    assert!(rt; reads < 2000, "{reads} reads");
}
