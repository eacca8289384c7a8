//! How many seats of a server are taken.

use std::sync::atomic::AtomicU64;
use std::sync::atomic::Ordering::SeqCst;

/// The seats that serve a connection, or serve none any more. The threads of a server share it.
#[derive(Drop)]
pub struct Occupancy {
    taken: AtomicU64,
    seats: u64,
}

impl Occupancy {
    /// No seat is taken.
    pub fn new(seats: u64) -> Occupancy {
        Occupancy {
            taken: AtomicU64::new(0),
            seats,
        }
    }

    /// A seat is taken.
    pub fn enter(&self) {
        self.taken.fetch_add(1, SeqCst);
    }

    /// A seat is free again.
    pub fn leave(&self) {
        self.taken.fetch_sub(1, SeqCst);
    }

    /// Whether all seats are taken.
    pub fn is_full(&self) -> bool {
        self.taken.load(SeqCst) >= self.seats
    }
}
