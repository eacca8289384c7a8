//! How many connections are open, what they hold, and how the thread that accepts waits for one to end.
//!
//! The thread that accepts says that it falls asleep, and looks at `open` behind that. A loop lowers `open`, and wakes it
//! behind that where it sleeps. So either the one finds room, or the other wakes it (`PollWaker`).

use crossbeam_utils::CachePadded;
use mio::Poll;
use peer_runtime::PollWaker;
use std::cmp::{max, min};
use std::sync::atomic::AtomicUsize;
use std::sync::atomic::Ordering::SeqCst;

/// The connections of a server. Its threads share it.
#[derive(Drop)]
pub struct Occupancy {
    open: AtomicUsize,
    most: usize,
    // How many can be had: as many as may be open, or those that were when there was no file for one more. The thread that
    // accepts alone sets it.
    room: AtomicUsize,
    // Wakes the thread that accepts.
    waker: PollWaker,
    // How many bytes the clients hold that hold more than each may.
    held: CachePadded<AtomicUsize>,
    most_held: usize,
}

impl Occupancy {
    /// No connection is open, of so many at most, which hold so many bytes before they hold too much. The poll is that of
    /// the thread that accepts. None where the system refuses it.
    pub fn new(poll: &Poll, most: usize, most_held: usize) -> Option<Occupancy> {
        Some(Occupancy {
            open: AtomicUsize::new(0),
            most,
            room: AtomicUsize::new(most),
            waker: PollWaker::new(poll)?,
            held: CachePadded::new(AtomicUsize::new(0)),
            most_held,
        })
    }

    /// A connection is open.
    pub fn enter(&self) {
        // Before it is counted, so that no loop finds it among too few places.
        self.note_file();
        self.open.fetch_add(1, SeqCst);
    }

    /// There was a file for one more connection.
    pub fn note_file(&self) {
        if self.room.load(SeqCst) != self.most {
            self.room.store(self.most, SeqCst);
        }
    }

    /// There was no file for one more connection: until there is one, no more can be had than are open.
    pub fn note_no_file(&self) {
        self.room
            .store(min(self.open.load(SeqCst), self.most), SeqCst);
    }

    /// A connection is closed.
    pub fn leave(&self) {
        self.open.fetch_sub(1, SeqCst);
        let _ = self.waker.wake_asleep();
    }

    /// Whether as many connections are open as may be.
    pub fn is_full(&self) -> bool {
        self.open.load(SeqCst) >= self.most
    }

    /// Whether no more connections can be had: as many are open as may be, or there was no file for one more.
    pub fn is_out_of_room(&self) -> bool {
        self.open.load(SeqCst) >= self.room.load(SeqCst)
    }

    /// Whether fewer connections are free than a sixteenth of all that can be had, one at least: then silent clients are still let
    /// go, where no more could be had.
    pub fn is_crowded(&self) -> bool {
        let room = self.room.load(SeqCst);
        room.saturating_sub(self.open.load(SeqCst)) < max(room / 16, 1)
    }

    /// A client holds so many bytes now, and held so many before.
    pub fn recount(&self, before: usize, now: usize) {
        if now > before {
            self.held.fetch_add(now.wrapping_sub(before), SeqCst);
        } else {
            self.held.fetch_sub(before.wrapping_sub(now), SeqCst);
        }
    }

    /// How many bytes the clients hold that hold more than each may.
    pub fn held(&self) -> usize {
        self.held.load(SeqCst)
    }

    /// Whether the clients together hold too much.
    pub fn holds_too_much(&self) -> bool {
        self.held() > self.most_held
    }

    /// The thread that accepts is about to wait for a place: it is woken once one is left. It looks behind this.
    pub fn await_place(&self) {
        self.waker.fall_asleep();
    }
}
