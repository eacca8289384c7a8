//! Servers that are told to end while clients are there.

use super::actions::Actions;
use super::calls::{ASK_SLOW, FOUND_SLOW};
use super::clients::{connect, exchange, is_soon, receive, receives, send, served_client};
use super::plans::{Expect, Kind, Plan, case_of, plan_of};
use super::servers::{Outside, is_met};
use std::net::{Net, SocketAddr, TcpListener, TcpStream};
use std::sync::Wait;
use std::sync::atomic::Ordering::SeqCst;
use std::thread;
use std::time::{Clock, Duration};
use stream_model::{ASK_K, FOUND_K};

// Waits until so many clients are there, for some seconds at most.
fn await_clients<H: Clock>(rt: &H, outside: &Outside, count: u64) -> bool {
    is_soon(rt, || outside.counters.read().loops.connections == count)
}

// Tells the server to end once this client has left, and three are there. Whether that is soon.
fn leaves_before<H: Clock>(rt: &H, stream: TcpStream, outside: &Outside) -> bool {
    drop(stream);
    let has_left = await_clients(rt, outside, 3);
    outside.stop.stop();
    has_left
}

// Tells the server to end: whether this client is let go.
fn stays<H: AllocGlobal>(rt: &H, stream: TcpStream, outside: &Outside) -> bool {
    outside.stop.stop();
    receives(rt.alloc(), &stream, b"")
}

// Two idle clients, and one that waits for its value, while the server is told to end: whether the idle ones are let go at once, one
// that comes then is refused at once, and the one that waits gets its value. One that came before them leaves before that, if it is
// to leave.
fn is_stopped_beside<
    H: AllocGlobal + Net<Listener = TcpListener, Stream = TcpStream> + Wait + Clock,
>(rt: &H, address: SocketAddr, leaves: bool, outside: &Outside) -> Option<bool> {
    let first = served_client(rt, address)?;
    let one = served_client(rt, address)?;
    let other = served_client(rt, address)?;
    let waiting = connect(rt, address)?;
    let slow = &outside.calls.slow;
    let mut right = send(&waiting, ASK_SLOW) && slow.is_called(rt);
    right &= if leaves {
        leaves_before(rt, first, outside)
    } else {
        stays(rt, first, outside)
    };
    right &= receives(rt.alloc(), &one, b"") && receives(rt.alloc(), &other, b"");
    right &= connect(rt, address).is_none() && !slow.open.swap(true, SeqCst);
    Some(right && receives(rt.alloc(), &waiting, FOUND_SLOW))
}

/// The same, and whether all were connected.
pub fn stop_beside<H: AllocGlobal + Net<Listener = TcpListener, Stream = TcpStream> + Wait + Clock>(
    rt: &H,
    address: SocketAddr,
    leaves: bool,
    outside: &Outside,
) -> bool {
    is_stopped_beside(rt, address, leaves, outside) == Some(true)
}

// A server for ten clients, which serves until it is told to end.
fn endless() -> Plan {
    plan_of(1, 10, 1).endless()
}

// The second one was told before it began.
#[test]
fn a_server_that_is_told_to_end_gives_the_values_that_are_waited_for(rt: HostRuntime) {
    let plan = endless().on_loops(2);
    let told = Plan {
        is_told: true,
        ..plan
    };
    let stopped = case_of(
        Kind::Loops,
        plan,
        Actions::StopBeside(false),
        Expect::Asked(4),
    );
    assert!(rt; is_met(&rt, stopped));
    let nothing = case_of(Kind::Loops, told, Actions::Nothing, Expect::Asked(0));
    assert!(rt; is_met(&rt, nothing));
}

#[test]
fn all_who_stay_are_let_go_where_one_has_left_before_a_stop(rt: HostRuntime) {
    let case = case_of(
        Kind::Loops,
        endless(),
        Actions::StopBeside(true),
        Expect::Asked(4),
    );
    assert!(rt; is_met(&rt, case));
}

// Requests for a value of 1 MiB, and how many bytes the reply to each has: the client is idle behind the first, and closes behind
// the second.
const ASKS_LARGE: [(&[u8], usize); 2] = [
    (
        b"GET /_groupcache/fill/1048576 HTTP/1.1\r\nHost: h\r\n\r\n",
        1_048_662,
    ),
    (
        b"GET /_groupcache/fill/1048576 HTTP/1.1\r\nHost: h\r\nConnection: close\r\n\r\n",
        1_048_681,
    ),
];

/// Whether a client that takes its reply late, once the server was told to end, and which sends more before, gets all of it. The
/// value is there before it asks.
pub fn is_closed_well<
    H: AllocGlobal + Net<Listener = TcpListener, Stream = TcpStream> + Wait + Clock,
>(rt: &H, address: SocketAddr, row: usize, outside: &Outside) -> bool {
    let (last, _) = ASKS_LARGE[1];
    let (request, length) = ASKS_LARGE[row % 2];
    let is_kept = exchange(rt, address, last).is_some();
    let Some(stream) = connect(rt, address) else {
        return false;
    };
    let asked = is_kept && send(&stream, request);
    thread::sleep(rt, Duration::from_millis(500));
    outside.stop.stop();
    thread::sleep(rt, Duration::from_millis(200));
    let sent = send(&stream, b"G");
    thread::sleep(rt, Duration::from_millis(100));
    match receive(rt.alloc(), &stream) {
        Some(reply) => asked && sent && reply.len() == length,
        None => false,
    }
}

#[test]
fn a_server_that_is_told_to_end_cuts_no_close_short(rt: HostRuntime) {
    let plan = endless().caching(2_097_152);
    for row in 0..2 {
        let case = case_of(
            Kind::Loops,
            plan,
            Actions::ClosedWell(row),
            Expect::Asked(2),
        );
        assert!(rt; is_met(&rt, case), "at {row}");
    }
}

// Waits until so many connections were accepted, for some seconds at most.
fn await_accepts<H: Clock>(rt: &H, outside: &Outside, accepts: u64) -> bool {
    is_soon(rt, || outside.counters.read().accepts.accepted >= accepts)
}

/// Whether those have their replies who asked before the server was told to end, while its one loop stood still: a client that was
/// there, and one that had just come.
pub fn have_their_replies<
    H: AllocGlobal + Net<Listener = TcpListener, Stream = TcpStream> + Wait + Clock,
>(rt: &H, address: SocketAddr, outside: &Outside) -> bool {
    let (Some(slow), Some(other)) = (connect(rt, address), served_client(rt, address)) else {
        return false;
    };
    let call = &outside.calls.slow;
    let stands_still = send(&slow, ASK_SLOW) && call.is_called(rt);
    let Some(new) = connect(rt, address) else {
        return false;
    };
    let asked = send(&other, ASK_K) && send(&new, ASK_K) && await_accepts(rt, outside, 3);
    // By then the new one was given to the loop.
    thread::sleep(rt, Duration::from_millis(100));
    outside.stop.stop();
    // By then the loop was told.
    thread::sleep(rt, Duration::from_millis(100));
    call.open();
    let alloc = rt.alloc();
    let served = receives(alloc, &other, FOUND_K) && receives(alloc, &new, FOUND_K);
    stands_still && asked && served && receives(alloc, &slow, FOUND_SLOW)
}

#[test]
fn those_who_asked_before_a_stop_have_their_replies(rt: HostRuntime) {
    let plan = plan_of(1, 10, 1).filling(None);
    let case = case_of(Kind::Loops, plan, Actions::AskBeforeStop, Expect::Asked(4));
    assert!(rt; is_met(&rt, case));
}
