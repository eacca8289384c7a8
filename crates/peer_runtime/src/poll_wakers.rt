//! By what several threads are woken that take what they do from one place.

use crate::poll_waker::PollWaker;
use std::sync::atomic::AtomicUsize;
use std::sync::atomic::Ordering::SeqCst;

/// What wakes each of them.
#[derive(Drop)]
pub struct PollWakers {
    pub each: Vec<PollWaker>,
    // Whom the next call looks at first.
    first: AtomicUsize,
}

/// What wakes one of them, beside what wakes all.
#[derive(Clone, Copy)]
pub struct OwnWaker<'a> {
    pub own: &'a PollWaker,
    all: &'a PollWakers,
}

impl PollWakers {
    /// What wakes these.
    pub fn new(each: Vec<PollWaker>) -> PollWakers {
        PollWakers {
            each,
            first: AtomicUsize::new(0),
        }
    }

    /// What wakes the one with this number.
    pub fn at(&self, number: usize) -> Option<OwnWaker<'_>> {
        let own = self.each.get(number)?;
        Some(OwnWaker { own, all: self })
    }

    /// So many things came that one thread each can take: as many threads are woken of those that sleep, in turn from one call
    /// to the next. One that is awake looks before it sleeps. One that was woken and can take no more wakes another.
    pub fn wake_asleep(&self, things: u64) {
        let first = self.first.fetch_add(1, SeqCst);
        let mut left = things;
        for number in 0..self.each.len() {
            if left == 0 {
                return;
            }
            let at = first.wrapping_add(number) % self.each.len();
            if self.each[at].wake_asleep() {
                left = left.saturating_sub(1);
            }
        }
    }

    /// Nothing more comes.
    pub fn close(&self) {
        for waker in &self.each {
            waker.close();
        }
    }
}

impl<'a> OwnWaker<'a> {
    /// The thread does not sleep, and can take no more. Where it was woken since it said that it sleeps, another one is woken
    /// in its place.
    pub fn pass_on(&self) {
        if !self.own.stay_awake() {
            self.all.wake_asleep(1);
        }
    }
}
