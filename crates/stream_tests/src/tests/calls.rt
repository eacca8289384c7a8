//! How often a source is called under a connection, and when.

use super::demos::{Failing, over_pieces};
use super::ends::{TWO, TWO_REPLIES};
use super::ordered::Holding;
use super::pooled::{Devices, Setup, serve_pooled};
use super::runs::{READS, whole};
use super::sources::{Watch, Watched, watching};
use super::tellers::{Acting, Telling, TellingLater};
use peer_conn::End;
use peer_fill::{Gate, NoGate};
use peer_view::{MemReader, MemWriter};
use std::process::Abort;
use std::sync::Wait;
use std::sync::atomic::AtomicU64;
use std::sync::atomic::Ordering::SeqCst;
use std::thread::Threads;
use stream_model::{ASK_K, repeated};
use test_support::Hooked;

// How often the source was called, how often the report says so, and how often the pool was asked.
#[derive(Clone, Copy, Debug, PartialEq, Eq)]
struct Counts {
    called: u64,
    calls: u64,
    asked: u64,
}

// The counts of a text in one piece over two workers, whose connection ends clean.
fn counts_of(
    rt: &(impl Abort + AllocGlobal + Threads + Wait + Sync),
    gate: &(impl Gate + Sync),
    cache_bytes: u64,
    text: &[u8],
) -> Counts {
    let watch = Watch::new();
    let setup = watching(&watch, cache_bytes, gate);
    let run = over_pieces(rt, setup, whole(rt, text), Failing::Nothing);
    assert_eq!(rt; run.served.end, End::Clean);
    Counts {
        called: watch.calls.load(SeqCst),
        calls: run.report.calls,
        asked: run.report.asked,
    }
}

#[test]
fn fills_in_the_other_order_are_each_called_for_once(rt: HostRuntime) {
    let expected = Counts {
        called: 2,
        calls: 2,
        asked: 2,
    };
    assert_eq!(rt; counts_of(&rt, &Holding::new(), 0, TWO), expected);
}

#[test]
fn a_hot_key_is_called_for_as_the_report_says(rt: HostRuntime) {
    let text = repeated(rt.alloc(), ASK_K, 500).expect(&rt, "memory");
    for cache_bytes in [0, 1_048_576] {
        let counts = counts_of(&rt, &NoGate, cache_bytes, &text);
        assert_eq!(rt; counts.called, counts.calls);
        assert!(rt; counts.calls < counts.asked);
    }
}

#[test]
fn a_reply_is_written_before_a_later_fill_is_there(rt: HostRuntime) {
    let watch = Watch::new();
    let hook = Watched {
        watch: &watch,
        patient: true,
    };
    let setup = Setup {
        source: Hooked { hook },
        cache_bytes: 0,
        workers: 1,
        gate: &NoGate,
    };
    let devices = Devices {
        reader: Acting {
            device: MemReader::new(whole(&rt, TWO), false),
            before: TellingLater {
                calls: AtomicU64::new(0),
                step: &watch.all_read,
            },
        },
        writer: Acting {
            device: MemWriter::new(rt.alloc(), 65_536, None),
            before: Telling {
                step: &watch.first_reply,
            },
        },
        reads: READS,
    };
    let served = serve_pooled(&rt, setup, devices).served;
    assert_eq!(rt; served.writer.device.taken(), TWO_REPLIES.as_slice());
    let expired = watch.all_read.has_expired() || watch.first_reply.has_expired();
    assert!(rt; !expired);
}
