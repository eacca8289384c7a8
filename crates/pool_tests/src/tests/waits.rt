//! Waits: that no wake-up is lost.

use peer_wait::{Notice, Waiter, lock};
use std::sync::atomic::AtomicU32;
use std::sync::atomic::Ordering::SeqCst;
use std::sync::{Mutex, Wait};
use std::thread::{Threads, join};

/// How often each thread hands over to the other.
const ROUNDS: u32 = 50_000;

/// A number that two threads raise in turn, and what tells of it.
#[derive(Drop)]
struct Turns {
    number: AtomicU32,
    changed: Notice,
}

impl Turns {
    fn wait_for<R: Wait>(&self, rt: &R, number: u32) {
        let mut waiter = Waiter::new(&self.changed);
        for _ in rt.forever() {
            if self.number.load(SeqCst) == number {
                return;
            }
            waiter.pause(rt);
        }
        unreachable!()
    }

    fn raise(&self) {
        self.number.fetch_add(1, SeqCst);
        self.changed.notify_all();
    }
}

// Raises each second number, from the first on.
fn take_turns<R: Wait>(rt: &R, turns: &Turns, first: u32) {
    for round in 0..ROUNDS {
        turns.wait_for(rt, round.wrapping_mul(2).wrapping_add(first));
        turns.raise();
    }
}

fn hand_over<R: Threads + Wait + Sync>(rt: &R) -> u32 {
    let turns = Turns {
        number: AtomicU32::new(0),
        changed: Notice::new(),
    };
    let shared = &turns;
    join(
        rt,
        move || take_turns(rt, shared, 0),
        move || take_turns(rt, shared, 1),
    );
    turns.number.load(SeqCst)
}

#[test]
fn a_hundred_thousand_hand_overs_lose_no_wake_up(rt: HostRuntime) {
    assert_eq!(rt; hand_over(&rt), 100_000);
}

/// How often two threads are woken, one after the other.
const MEETINGS: u32 = 10_000;

/// Turns that are there to take, how many were taken, and what tells of each.
#[derive(Drop)]
struct Meetings {
    offered: Mutex<u32>,
    taken: AtomicU32,
    offer: Notice,
    take: Notice,
}

impl Meetings {
    // Takes a turn if there is one. Under the lock, since a look that another's step made fail would find nothing where a
    // turn is, and its thread would sleep.
    fn try_take<R: Wait>(&self, rt: &R) -> bool {
        let mut offered = lock(rt, &self.offered);
        let left = offered.checked_sub(1);
        if let Some(left) = left {
            *offered = left;
        }
        left.is_some()
    }

    // Takes a turn, and wakes the next where more are offered.
    fn take_one<R: Wait>(&self, rt: &R) {
        let mut waiter = Waiter::new(&self.offer);
        for _ in rt.forever() {
            if self.try_take(rt) {
                if waiter.may_have_slept() {
                    self.wake_next(rt);
                }
                self.taken.fetch_add(1, SeqCst);
                return self.take.notify_all();
            }
            waiter.pause(rt);
        }
        unreachable!()
    }

    // Who was woken wakes the next one, where more is offered.
    fn wake_next<R: Wait>(&self, rt: &R) {
        self.offer.acknowledge();
        if *lock(rt, &self.offered) > 0 {
            self.offer.notify_one();
        }
    }

    fn offer_one<R: Wait>(&self, rt: &R) {
        {
            let mut offered = lock(rt, &self.offered);
            *offered = offered.wrapping_add(1);
        }
        self.offer.notify_one();
    }

    // Waits until so many turns were taken.
    fn wait_for<R: Wait>(&self, rt: &R, taken: u32) {
        let mut waiter = Waiter::new(&self.take);
        for _ in rt.forever() {
            if self.taken.load(SeqCst) >= taken {
                return;
            }
            waiter.pause(rt);
        }
        unreachable!()
    }

    // Takes one turn at each meeting, and stays until the other took one too.
    fn meet<R: Wait>(&self, rt: &R) {
        for meeting in 0..MEETINGS {
            self.take_one(rt);
            self.wait_for(rt, meeting.wrapping_mul(2).wrapping_add(2));
        }
    }

    // Offers two turns at each meeting.
    fn offer_two<R: Wait>(&self, rt: &R) {
        for meeting in 0..MEETINGS {
            self.wait_for(rt, meeting.wrapping_mul(2));
            for _ in 0..2 {
                self.offer_one(rt);
            }
        }
    }
}

fn hold_meetings<R: Threads + Wait + Sync>(rt: &R) -> u32 {
    let meetings = Meetings {
        offered: Mutex::new(0u32),
        taken: AtomicU32::new(0),
        offer: Notice::new(),
        take: Notice::new(),
    };
    let all = &meetings;
    join(
        rt,
        move || all.offer_two(rt),
        move || {
            join(rt, move || all.meet(rt), move || all.meet(rt));
        },
    );
    meetings.taken.load(SeqCst)
}

// Each is needed: the one that was woken first waits for the other.
#[test]
fn the_second_of_two_is_woken_too(rt: HostRuntime) {
    assert_eq!(rt; hold_meetings(&rt), 20_000);
}

// Adds one under the lock, again and again.
fn add<R: Wait>(rt: &R, sum: &Mutex<u32>) {
    for _ in 0..ROUNDS {
        let mut held = lock(rt, sum);
        *held = held.wrapping_add(1);
    }
}

fn add_in_two_threads<R: Threads + Wait + Sync>(rt: &R) -> u32 {
    let sum = Mutex::new(0u32);
    let shared = &sum;
    join(rt, move || add(rt, shared), move || add(rt, shared));
    sum.into_inner()
}

#[test]
fn two_threads_take_a_lock_in_turn(rt: HostRuntime) {
    assert_eq!(rt; add_in_two_threads(&rt), 100_000);
}
