//! What the thread that writes an access log sleeps by.

use std::sync::Wait;
use std::thread::Parker;
use std::time::Duration;

/// What wakes the thread that writes.
#[derive(Default, Drop)]
pub struct Bell {
    parker: Parker,
}

impl Bell {
    /// Wakes the thread that waits, or the next one that waits.
    pub fn ring(&self) {
        self.parker.unpark();
    }

    /// Waits until it is rung, for so long at most. One thread at a time waits.
    pub fn wait<H: Wait>(&self, rt: &H, time: Duration) {
        self.parker.park_timeout(rt, time);
    }
}
