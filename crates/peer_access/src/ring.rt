//! The ring of one loop: where it puts records, and where the log takes them.
ghost use Rattle.std.specs.Prelude.{◌≡◌, IfOk, IfSome, [], ◌∷◌, ◌++◌};
ghost use Rattle.rtrb.specs.Ring.{received, sent};
ghost use Rattle.peer_access.specs.Rings.{AreRing, PutsOrDrops};

use crate::bell::Bell;
use crate::record::ReplyRecord;
use rtrb::{Consumer, Producer, RingBuffer};
use std::alloc::{AllocError, Global};
use std::sync::Arc;

// How many records a ring holds.
const PLACES: usize = 4096;

// After how many records the log is woken: it looks by itself now and then.
const WAKES_AFTER: u32 = 1024;

/// Where a loop puts records.
#[derive(Drop)]
pub struct RecordsIn {
    producer: Producer<ReplyRecord>,
    bell: Arc<Bell, Global>,
    // The records that were put since the log was woken.
    put: u32,
    // Those that were dropped and not told.
    dropped: u64,
}

/// Where the log takes records.
#[derive(Drop)]
pub struct RecordsOut {
    consumer: Consumer<ReplyRecord>,
}

/// A ring of 4,096 places, which is empty. This bell wakes the log.
pub(crate) fn ring(
    alloc: Global,
    bell: Arc<Bell, Global>,
) -> Result<(RecordsIn, RecordsOut), AllocError>
    ensures { IfOk result (λ ends. AreRing ends.0 ends.1) }
{
    let (producer, consumer) = RingBuffer::new(alloc, PLACES)?;
    let put = RecordsIn {
        producer,
        bell,
        put: 0,
        dropped: 0,
    };
    Ok((put, RecordsOut { consumer }))
}

impl RecordsIn {
    // One more was put. Wakes the log once there are many.
    fn note_put(&mut self)
        ensures producer { self.new.producer ≡ self.old.producer }
        ensures dropped { self.new.dropped ≡ self.old.dropped }
    {
        self.put = self.put.wrapping_add(1);
        if self.put >= WAKES_AFTER {
            self.put = 0;
            self.bell.ring();
        }
    }

    /// Puts a record behind the others, or drops and counts it if there is no place. It never waits.
    pub fn put(&mut self, reply: ReplyRecord)
        ensures { PutsOrDrops reply self.old self.new }
    {
        match self.producer.push(reply) {
            Ok(()) => self.note_put(),
            Err(_) => self.dropped = self.dropped.saturating_add(1),
        }
    }

    /// How many records were dropped since this was asked last.
    pub fn take_dropped(&mut self) -> u64
        ensures { result ≡ self.old.dropped }
    {
        let dropped = self.dropped;
        self.dropped = 0;
        dropped
    }
}

impl RecordsOut {
    /// Takes the first record out, if there is one.
    pub fn take(&mut self) -> Option<ReplyRecord>
        ensures { IfSome result (λ reply. received self.new.consumer ≡ received self.old.consumer ++ reply ∷ []) }
    {
        match self.consumer.pop() {
            Ok(record) => Some(record),
            Err(_) => None,
        }
    }
}
