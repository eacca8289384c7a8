//! What asks give that do not wait, once the queue of jobs is full.

use super::desk::{Desk, Steps, run};
use super::numbering::Numbering;
use crate::tests::values::ECHO;
use peer_fill::{NoGate, Report};
use peer_flight::Claim;
use std::sync::Wait;
use std::sync::ledger::Ledger;
use test_support::all_called;

// What an ask gave.
#[derive(Clone, Copy, Debug, PartialEq, Eq)]
enum Gave {
    Value,
    Flight,
    // Not now.
    Nothing,
    Fault,
}

// How many jobs the queue has room for.
const JOBS: u16 = 256;

// The key whose value is kept.
const KEPT: u16 = 1000;

// Asks for a key of two bytes, without waiting: what the ask gave, and whether a job is left behind it.
fn ask<L: Ledger, R: Wait>(rt: &R, desk: &mut Desk<Numbering, L>, number: u16) -> (Gave, bool) {
    let conn = &mut desk.seats.conn;
    let gave = match desk
        .pool
        .ask_now(rt, desk.alloc, conn, ECHO, &number.to_be_bytes())
    {
        Ok(Some(Claim::Ready(_))) => Gave::Value,
        Ok(Some(Claim::Pending(_))) => Gave::Flight,
        Ok(None) => Gave::Nothing,
        Err(_) => Gave::Fault,
    };
    (gave, conn.has_left())
}

// Puts the job that is left, if there is room for it: whether none is left.
fn put_left<L: Ledger, R: Wait>(rt: &R, desk: &mut Desk<Numbering, L>) -> bool {
    desk.pool.put_left(rt, &mut desk.seats.conn)
}

// Asks for as many keys as the queue has room for jobs: whether each led a flight whose job was pushed.
fn fill_queue<L: Ledger, R: Wait>(rt: &R, desk: &mut Desk<Numbering, L>) -> bool {
    let mut right = true;
    for number in 0..JOBS {
        right &= ask(rt, desk, number) == (Gave::Flight, false);
    }
    right
}

// What each ask gave at a full queue, whether a job was left behind it, and whether the job that was left was put before
// and after a worker took one.
#[derive(Clone, Copy, Debug, PartialEq, Eq)]
struct Seen {
    filled: bool,
    asks: [(Gave, bool); 6],
    put: [bool; 2],
    left: bool,
}

/// Has a value kept, fills the queue, and asks on.
struct AskAtFull;

impl Steps for AskAtFull {
    type Source = Numbering;

    type Seen = Seen;

    fn take<L: Ledger, R: Wait>(&self, rt: &R, desk: &mut Desk<Numbering, L>) -> Option<Seen> {
        ask(rt, desk, KEPT);
        desk.work(rt, 1, &NoGate);
        let filled = fill_queue(rt, desk);
        let one_more = ask(rt, desk, JOBS);
        let two_more = ask(rt, desk, 300);
        let hit = ask(rt, desk, KEPT);
        let queued = ask(rt, desk, 7);
        let left = ask(rt, desk, JOBS);
        let put_early = put_left(rt, desk);
        desk.work(rt, 1, &NoGate);
        let put_late = put_left(rt, desk);
        let is_left = desk.seats.conn.has_left();
        let last = ask(rt, desk, 300);
        Some(Seen {
            filled,
            asks: [one_more, two_more, hit, queued, left, last],
            put: [put_early, put_late],
            left: is_left,
        })
    }
}

#[test]
fn an_ask_that_does_not_wait_leaves_one_job_with_its_seat(rt: HostRuntime) {
    let seen = Seen {
        filled: true,
        asks: [
            (Gave::Flight, true),
            (Gave::Nothing, true),
            (Gave::Value, true),
            (Gave::Flight, true),
            (Gave::Flight, true),
            (Gave::Flight, true),
        ],
        put: [false, true],
        left: false,
    };
    let report = Report {
        hits: 1,
        led: 259,
        joined: 2,
        calls: 2,
        left: 257,
        ..all_called(262)
    };
    let found = run(&rt, rt.alloc(), Numbering::new(2, 0, 0), 1000, &AskAtFull);
    assert_eq!(rt; found, Some((seen, report)));
}
