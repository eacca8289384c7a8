//! The seed of caches.

use std::hash::RandomState;
use std::io;
use std::random::RandomSource;

// Gives this byte again and again, so that each run has the same seed.
#[derive(Drop)]
struct Repeats(u8);

impl RandomSource for Repeats {
    fn fill_bytes(&self, buf: &mut [u8]) -> io::Result<()> {
        buf.fill(self.0);
        Ok(())
    }
}

/// The seed of the caches of a test.
pub fn seed() -> Option<RandomState> {
    seed_of(0)
}

/// A seed by this byte.
pub fn seed_of(byte: u8) -> Option<RandomState> {
    RandomState::new(&Repeats(byte)).ok()
}
