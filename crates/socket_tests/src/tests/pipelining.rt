//! A client that sends more requests at once than may wait at one moment.

use super::actions::Actions;
use super::asking::many_requests;
use super::clients::{connect, is_soon, receive, send};
use super::plans::{Expect, Held, Kind, case_of, plan_of};
use super::servers::{Outside, is_met};
use peer_stats::Counters;
use std::net::{Net, SocketAddr, TcpListener, TcpStream};
use std::sync::Wait;
use std::time::Clock;
use stream_model::FOUND_K_LAST;

// Waits until so many keys were asked for, for some seconds at most.
fn await_led<H: Clock>(rt: &H, counters: &Counters, count: u64) -> bool {
    is_soon(rt, || counters.read().loops.led == count)
}

/// Whether three of six requests were asked for while the second value is not there: behind the first reply two may wait. And
/// whether the others are, behind whose second reply four may wait, while the third value is not there; and all are answered.
pub fn is_asked_on<H: AllocGlobal + Net<Listener = TcpListener, Stream = TcpStream> + Wait + Clock>(
    rt: &H,
    address: SocketAddr,
    outside: &Outside,
) -> bool {
    let (Some(stream), Some(requests)) = (connect(rt, address), many_requests(rt.alloc(), 0, 5))
    else {
        return false;
    };
    let (second, third) = (&outside.calls.one, &outside.calls.two);
    let three = send(&stream, &requests)
        && second.is_called(rt)
        && await_led(rt, &outside.counters, 3);
    second.open();
    let six = third.is_called(rt) && await_led(rt, &outside.counters, 6);
    third.open();
    let answered = match receive(rt.alloc(), &stream) {
        Some(bytes) => bytes.len() == 5 * 83 + 98 && bytes.ends_with(FOUND_K_LAST),
        None => false,
    };
    three && six && answered
}

#[test]
fn more_is_asked_for_once_the_first_that_waits_is_answered(rt: HostRuntime) {
    let plan = plan_of(1, 1, 1).holding(Held::TwoNumbers);
    let case = case_of(Kind::Loops, plan, Actions::AskedOn, Expect::Asked(6));
    assert!(rt; is_met(&rt, case));
}
