//! How threads are woken that wait in a poll: one where it said that it sleeps, and each time where it is told so; and of several
//! as many as can take what came.

use mio::{Events, Poll};
use peer_runtime::{PollWaker, PollWakers, WOKEN};
use std::alloc::Global;
use std::net::Net;
use std::time::Duration;

// A thread that waits in a poll.
#[derive(Drop)]
struct Waiting {
    poll: Poll,
    events: Events,
}

impl Waiting {
    // One, and what wakes it.
    fn new<H: Net>(rt: &H, alloc: Global) -> Option<(Waiting, PollWaker)> {
        let poll = Poll::new(rt).ok()?;
        let waker = PollWaker::new(&poll)?;
        let events = Events::with_capacity(alloc, 4).ok()?;
        Some((Waiting { poll, events }, waker))
    }

    // Whether a wake-up is there already.
    fn is_woken(&mut self) -> Option<bool> {
        self.poll.poll(&mut self.events, Some(Duration::ZERO)).ok()?;
        Some(self.events.iter().any(|event| event.token() == WOKEN))
    }
}

// Whether it is woken awake, where it said that it sleeps, and once more behind that.
fn wakes<H: Net>(rt: &H, alloc: Global) -> Option<[bool; 6]> {
    let (mut thread, waker) = Waiting::new(rt, alloc)?;
    let awake = waker.wake_asleep();
    let woken_awake = thread.is_woken()?;
    waker.fall_asleep();
    let asleep = waker.wake_asleep();
    let again = waker.wake_asleep();
    let woken = thread.is_woken()?;
    waker.fall_asleep();
    waker.stay_awake();
    Some([
        awake,
        woken_awake,
        asleep,
        again,
        woken,
        waker.wake_asleep(),
    ])
}

#[test]
fn only_one_that_sleeps_is_woken(rt: HostRuntime) {
    assert!(rt; wakes(&rt, rt.alloc()) == Some([false, false, true, false, true, false]));
}

// Whether it is closed and woken before it is closed, and behind that.
fn closes<H: Net>(rt: &H, alloc: Global) -> Option<[bool; 4]> {
    let (mut thread, waker) = Waiting::new(rt, alloc)?;
    let open = waker.is_closed();
    let early = thread.is_woken()?;
    waker.close();
    let woken = thread.is_woken()?;
    Some([open, early, waker.is_closed(), woken])
}

#[test]
fn one_that_is_closed_is_woken(rt: HostRuntime) {
    assert!(rt; closes(&rt, rt.alloc()) == Some([false, false, true, true]));
}

// Two threads that wait, and what wakes them.
#[derive(Drop)]
struct Two {
    first: Waiting,
    second: Waiting,
    wakers: PollWakers,
}

impl Two {
    fn new<H: Net>(rt: &H, alloc: Global) -> Option<Two> {
        let (first, one) = Waiting::new(rt, alloc)?;
        let (second, other) = Waiting::new(rt, alloc)?;
        let mut each = Vec::new(alloc);
        each.push(one).ok()?;
        each.push(other).ok()?;
        let wakers = PollWakers::new(each);
        Some(Two {
            first,
            second,
            wakers,
        })
    }

    // Both say that they sleep.
    fn fall_asleep(&self) {
        for waker in &self.wakers.each {
            waker.fall_asleep();
        }
    }

    // Whether a wake-up is there already for each.
    fn are_woken(&mut self) -> Option<[bool; 2]> {
        Some([self.first.is_woken()?, self.second.is_woken()?])
    }
}

// Who is woken of two that sleep: where one thing came, where the one that was woken for it passes that on, and where one passes
// on that was not woken.
fn wakes_of_two<H: Net>(rt: &H, alloc: Global) -> Option<[[bool; 2]; 3]> {
    let mut two = Two::new(rt, alloc)?;
    two.fall_asleep();
    two.wakers.wake_asleep(1);
    let woken = two.are_woken()?;
    two.wakers.at(0)?.pass_on();
    let passed_on = two.are_woken()?;
    two.fall_asleep();
    two.wakers.at(0)?.pass_on();
    Some([woken, passed_on, two.are_woken()?])
}

#[test]
fn as_many_are_woken_as_can_take_what_came(rt: HostRuntime) {
    assert!(rt;
        wakes_of_two(&rt, rt.alloc()) == Some([[true, false], [false, true], [false, false]])
    );
}
