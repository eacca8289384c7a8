//! What ends the threads beside the server.

use std::sync::Wait;
use std::sync::atomic::AtomicBool;
use std::sync::atomic::Ordering::SeqCst;
use std::thread::Parker;
use std::time::{Clock, Duration, Instant};

/// What ends one thread beside the server, which looks at it between its rounds.
#[derive(Drop)]
pub struct End {
    told: AtomicBool,
    parker: Parker,
}

impl End {
    /// It is not told.
    pub fn new() -> End {
        End {
            told: AtomicBool::new(false),
            parker: Parker::new(),
        }
    }

    /// Tells the end, and ends a wait for it.
    pub fn tell(&self) {
        self.told.store(true, SeqCst);
        self.parker.unpark();
    }

    /// Whether it was told.
    pub fn is_told(&self) -> bool {
        self.told.load(SeqCst)
    }

    /// Waits so long, or until it is told. Where there is no clock it may wait for less, and waits all the same.
    pub fn wait<H: Wait + Clock>(&self, rt: &H, time: Duration) {
        let begun = Instant::now(rt).ok();
        for _ in rt.forever() {
            if self.is_told() {
                return;
            }
            let Some(passed) = begun.and_then(|begun| begun.elapsed(rt).ok()) else {
                self.parker.park_timeout(rt, time);
                return;
            };
            if passed >= time {
                return;
            }
            self.parker.park_timeout(rt, time.saturating_sub(passed));
        }
        unreachable!()
    }
}
