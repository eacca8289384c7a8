//! A lane between two threads: tickets come in order, and each thread sleeps and is woken.

use super::full::fill_up;
use super::{has_number, ticket_with};
use peer_lane::{LaneIn, LaneOut, Signal, lane};
use peer_source::DemoSource;
use std::alloc::{AllocError, Global};
use std::sync::Wait;
use std::thread;
use std::thread::Threads;
use std::time::{Clock, Duration};

/// More than a lane has room for.
const MANY: u8 = 200;

// Puts the tickets from 0 on, late or at once.
fn put_many<R: Wait + Clock>(
    rt: &R,
    alloc: Global,
    signal: &Signal,
    put: &mut LaneIn<DemoSource>,
    late: Duration,
) -> Result<(), AllocError> {
    thread::sleep(rt, late);
    for number in 0..MANY {
        put.put_waiting(rt, signal, ticket_with(alloc, number)?);
    }
    Ok(())
}

// Whether the tickets came in order, and then the word that nothing more is put.
fn take_many<R: Wait + Clock>(
    rt: &R,
    signal: &Signal,
    taken: &mut LaneOut<DemoSource>,
    late: Duration,
) -> bool {
    thread::sleep(rt, late);
    for number in 0..MANY {
        if !has_number(taken.take_waiting(rt, signal), number) {
            return false;
        }
    }
    taken.take_waiting(rt, signal).is_none()
}

// Whether all tickets were put, and whether they came in order.
fn cross<R: Threads + Wait + Clock + Sync>(
    rt: &R,
    alloc: Global,
    put_late: Duration,
    take_late: Duration,
) -> Result<(bool, bool), AllocError> {
    let (mut put, mut taken) = lane(alloc)?;
    let signal = Signal::new();
    let signal = &signal;
    Ok(thread::join(
        rt,
        move || {
            let all = put_many(rt, alloc, signal, &mut put, put_late).is_ok();
            signal.finish();
            all
        },
        move || take_many(rt, signal, &mut taken, take_late),
    ))
}

#[test]
fn tickets_cross_to_another_thread(rt: HostRuntime) {
    let alloc = rt.alloc();
    let (none, long) = (Duration::from_micros(0), Duration::from_micros(3000));
    let crossed = [
        cross(&rt, alloc, none, none),
        cross(&rt, alloc, long, none),
        cross(&rt, alloc, none, long),
    ];
    assert_eq!(rt; crossed, [Ok((true, true)); 3]);
}

// Whether a ticket of a full lane was taken and, with a notice, the one that waited came behind the others.
fn take_and_notify<R: Wait + Clock>(
    rt: &R,
    signal: &Signal,
    taken: &mut LaneOut<DemoSource>,
) -> bool {
    thread::sleep(rt, Duration::from_micros(3000));
    let first = has_number(taken.take(), 0);
    signal.notify();
    for number in 1..64 {
        if !has_number(taken.take(), number) {
            return false;
        }
    }
    first && has_number(taken.take_waiting(rt, signal), 64)
}

// Whether a notice after a `take` wakes the thread that waits to put a ticket into a full lane.
fn wakes<R: Threads + Wait + Clock + Sync>(rt: &R, alloc: Global) -> Result<bool, AllocError> {
    let (mut put, mut taken) = lane(alloc)?;
    fill_up(alloc, &mut put)?;
    let ticket = ticket_with(alloc, 64)?;
    let signal = Signal::new();
    let signal = &signal;
    let (_, woken) = thread::join(
        rt,
        move || put.put_waiting(rt, signal, ticket),
        move || take_and_notify(rt, signal, &mut taken),
    );
    Ok(woken)
}

#[test]
fn a_notice_wakes_the_other_end(rt: HostRuntime) {
    assert_eq!(rt; wakes(&rt, rt.alloc()), Ok(true));
}
