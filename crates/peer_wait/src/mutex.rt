//! A lock that is held for a moment at a time.

use std::hint::spin_loop;
use std::sync::{Mutex, MutexGuard, Wait};

// Looks before a sleep, some 3 microseconds: about as long as a few others hold the lock.
const LOOKS: u32 = 64;

/// Takes the lock. It looks 64 times before it sleeps, also where others sleep already: a lock on which one thread sleeps
/// makes all who come sleep, so that each who leaves it has to wake one.
pub fn lock<'a, T, R: Wait>(rt: &R, mutex: &'a Mutex<T>) -> MutexGuard<'a, T> {
    for _ in 0..LOOKS {
        if let Some(guard) = mutex.try_lock() {
            return guard;
        }
        spin_loop();
    }
    mutex.lock(rt)
}
