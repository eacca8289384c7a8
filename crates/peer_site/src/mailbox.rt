//! What other threads tell a loop: fills, room in the queue of jobs, streams, and the end. And how it sleeps meanwhile.
//!
//! A flight has one of `SLOTS` slots, by its number. The loop lists each client that waits for a fill at the slot of its
//! flight. Why no wake-up is lost:
//!
//! 1. The loop sets the slot's bit in `wanted`, and looks at the fill behind that. Who fills sets the fill, and takes the
//!    bit out of `wanted` behind that. Both steps change one word, so one comes first. Where the loop's does, who fills
//!    finds the bit. Where the other's does, the loop's reads what it wrote, and so its look finds the fill.
//! 2. Who finds the bit sets it in `told`, and wakes the loop where that sleeps. The loop says that it falls asleep, and looks
//!    at all of `told` behind that, whatever it wanted. So either the loop finds the bit and does not sleep, or who fills finds
//!    that it is asleep and wakes it (`PollWaker`).
//! 3. The loop takes the bits out of `told` before it gives the clients at these slots their turn, and one that still
//!    waits begins again at 1. A bit that is set behind the taking stays, and the next look of 2 finds it.
//!
//! The same two steps hold for room in the queue of jobs (`wants_room` in the place of the bit, the try to push a job in
//! the place of the look, the taking of a job in the place of the fill). Streams and the end are told by a wake-up each
//! time. A loop that fills jobs itself tells itself in the same way, awake. All orders are SeqCst.
ghost use Rattle.std.specs.Prelude.{◌<◌};

use crossbeam_queue::ArrayQueue;
use mio::Poll;
use mio::net::TcpStream;
use peer_runtime::PollWaker;
use std::alloc::Global;
use std::sync::Wait;
use std::sync::atomic::Ordering::SeqCst;
use std::sync::atomic::{AtomicBool, AtomicU64};

/// How many streams wait for one loop. The thread that accepts waits where there are more.
pub const MAX_ARRIVED: usize = 1024;

/// How many slots a word has.
pub const SLOTS_OF_WORD: usize = 64;

/// How many words of slots there are.
pub const WORDS: usize = 8;

/// How many slots there are.
pub const SLOTS: usize = 512;

/// The slot of the flight with this number.
pub fn slot_of(number: u64) -> usize {
    (number % SLOTS as u64) as usize
}

// The word of a slot.
fn word_of(slot: usize) -> usize
    ensures { result < 8 }
{
    slot / SLOTS_OF_WORD % WORDS
}

// The bit of a slot in its word.
fn bit_of(slot: usize) -> u64 {
    1u64.wrapping_shl((slot % SLOTS_OF_WORD) as u32)
}

/// The slots of one word that were told.
#[derive(Clone, Copy, Debug)]
pub struct ToldSlots {
    word: usize,
    bits: u64,
}

impl ToldSlots {
    /// The next of them.
    pub fn next_slot(&mut self) -> Option<usize> {
        if self.bits == 0 {
            return None;
        }
        let bit = self.bits.trailing_zeros() as usize;
        self.bits &= !bit_of(bit);
        Some(self.word.wrapping_mul(SLOTS_OF_WORD).wrapping_add(bit))
    }
}

/// What other threads tell one loop.
#[derive(Drop)]
pub struct Mailbox {
    waker: PollWaker,
    wants_room: AtomicBool,
    wanted: [AtomicU64; WORDS],
    told: [AtomicU64; WORDS],
    arrived: ArrayQueue<TcpStream>,
    stopping: AtomicBool,
}

impl Mailbox {
    /// The mailbox of the loop that has this poll. None where memory or the system refuses it.
    pub fn new(alloc: Global, poll: &Poll) -> Option<Mailbox> {
        let arrived = ArrayQueue::new(alloc, MAX_ARRIVED).ok()?;
        Some(Mailbox {
            waker: PollWaker::new(poll)?,
            wants_room: AtomicBool::new(false),
            wanted: Default::default(),
            told: Default::default(),
            arrived,
            stopping: AtomicBool::new(false),
        })
    }

    /// The loop wants to be told of fills at the slot. It looks at the fill behind this.
    pub fn want(&self, slot: usize) {
        self.wanted[word_of(slot)].fetch_or(bit_of(slot), SeqCst);
    }

    /// The loop wants to be told that the queue of jobs has room. It tries to push its job behind this.
    pub fn want_room(&self) {
        self.wants_room.store(true, SeqCst);
    }

    /// A job was taken off the queue.
    pub fn tell_room(&self) {
        if self.wants_room.load(SeqCst) && self.wants_room.swap(false, SeqCst) {
            let _ = self.waker.wake_asleep();
        }
    }

    /// A fill of the slot was set.
    pub fn tell(&self, slot: usize) {
        let word = word_of(slot);
        let bit = bit_of(slot);
        if self.wanted[word].fetch_and(!bit, SeqCst) & bit != 0 {
            self.told[word].fetch_or(bit, SeqCst);
            let _ = self.waker.wake_asleep();
        }
    }

    /// The slots of a word that were told, each once.
    pub fn take_told(&self, word: usize) -> ToldSlots {
        let told = &self.told[word % WORDS];
        let bits = if told.load(SeqCst) == 0 {
            0
        } else {
            told.swap(0, SeqCst)
        };
        ToldSlots { word, bits }
    }

    /// Whether a slot was told.
    pub fn is_told(&self) -> bool {
        self.told.iter().any(|word| word.load(SeqCst) != 0)
    }

    /// The loop is about to sleep. It looks at what it was told behind this.
    pub fn fall_asleep(&self) {
        self.waker.fall_asleep();
    }

    /// The loop does not sleep.
    pub fn stay_awake(&self) {
        let _ = self.waker.stay_awake();
    }

    /// Gives the loop a stream, or gives it back where too many wait.
    pub fn give<R: Wait>(&self, rt: &R, stream: TcpStream) -> Result<(), TcpStream> {
        let given = self.arrived.push(rt, stream);
        self.waker.wake();
        given
    }

    /// The next stream that was given.
    pub fn next_stream<R: Wait>(&self, rt: &R) -> Option<TcpStream> {
        self.arrived.pop(rt)
    }

    /// No more streams are given: the loop ends once it has no client.
    pub fn close(&self) {
        self.waker.close();
    }

    /// The server was told to end: the loop reads nothing more of its clients, and closes them once they have their replies.
    pub fn stop(&self) {
        self.stopping.store(true, SeqCst);
        self.close();
    }

    /// Whether the server was told to end.
    pub fn is_stopping(&self) -> bool {
        self.stopping.load(SeqCst)
    }

    /// Whether no more streams are given, and none waits. The look at those that wait is behind the other: each was given
    /// before the end.
    pub fn is_over(&self) -> bool {
        self.waker.is_closed() && self.arrived.is_empty()
    }
}
