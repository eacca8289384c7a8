//! The reader reads on while the writer waits.

use super::demos::demo;
use super::ends::{TWO, TWO_REPLIES};
use super::pooled::{Devices, serve_pooled};
use super::runs::{READS, halves};
use super::tellers::{Acting, BeforeCall};
use peer_conn::End;
use peer_view::{MemReader, MemWriter};
use std::sync::atomic::AtomicU64;
use std::sync::atomic::Ordering::SeqCst;
use test_support::Step;

// The second read and the first write, which wait for one another.
#[derive(Drop)]
struct Meeting {
    reads: AtomicU64,
    second_read: Step,
    first_write: Step,
}

// The second read waits for the first write.
#[derive(Drop)]
struct SecondRead<'a> {
    meeting: &'a Meeting,
}

impl<'a> BeforeCall for SecondRead<'a> {
    fn act(&self) {
        if self.meeting.reads.fetch_add(1, SeqCst) == 1 {
            self.meeting.second_read.tell();
            self.meeting.first_write.wait();
        }
    }
}

// The writes wait for the second read.
#[derive(Drop)]
struct FirstWrite<'a> {
    meeting: &'a Meeting,
}

impl<'a> BeforeCall for FirstWrite<'a> {
    fn act(&self) {
        self.meeting.first_write.tell();
        self.meeting.second_read.wait();
    }
}

#[test]
fn a_read_and_a_write_wait_for_one_another(rt: HostRuntime) {
    let meeting = Meeting {
        reads: AtomicU64::new(0),
        second_read: Step::new(),
        first_write: Step::new(),
    };
    let meeting = &meeting;
    let devices = Devices {
        reader: Acting {
            device: MemReader::new(halves(&rt, TWO, 45), false),
            before: SecondRead { meeting },
        },
        writer: Acting {
            device: MemWriter::new(rt.alloc(), 65_536, None),
            before: FirstWrite { meeting },
        },
        reads: READS,
    };
    let served = serve_pooled(&rt, demo(1, 0), devices).served;
    assert_eq!(rt; served.end, End::Clean);
    assert_eq!(rt; served.writer.device.taken(), TWO_REPLIES.as_slice());
    let expired = [
        meeting.second_read.has_expired(),
        meeting.first_write.has_expired(),
    ];
    assert_eq!(rt; expired, [false; 2]);
}
