//! What the server on event loops has alone: counters that it publishes.

use super::actions::Actions;
use super::clients::{exchange, is_served, is_soon};
use super::plans::{Expect, Kind, case_of, plan_of};
use super::servers::{Outside, is_met};
use peer_stats::Counters;
use std::net::{Net, SocketAddr, TcpListener, TcpStream};
use std::sync::Wait;
use std::time::Clock;

const ASK_TWICE: &[u8] = b"GET /_groupcache/echo/k HTTP/1.1\r\nHost: h\r\n\r\n\
      GET /_groupcache/echo/k HTTP/1.1\r\nHost: h\r\nConnection: close\r\n\r\n";

// Whether a server publishes that one client came and has gone that asked twice, and each call.
fn has_counted(counters: &Counters) -> bool {
    let counts = counters.read();
    let loops = counts.loops;
    let parts = loops
        .hits
        .wrapping_add(loops.led)
        .wrapping_add(loops.joined);
    let jobs = counts.fillers.calls.wrapping_add(counts.fillers.rehits);
    [loops.asked, parts, loops.connections] == [2, 2, 0]
        && [jobs, counts.accepts.accepted, counts.accepts.failed] == [loops.led, 1, 0]
}

/// Whether a server soon publishes what a client did.
pub fn is_published<
    H: AllocGlobal + Net<Listener = TcpListener, Stream = TcpStream> + Wait + Clock,
>(rt: &H, address: SocketAddr, outside: &Outside) -> bool {
    let answered = exchange(rt, address, ASK_TWICE).is_some();
    answered && is_soon(rt, || has_counted(&outside.counters))
}

#[test]
fn a_server_publishes_what_it_counts(rt: HostRuntime) {
    let case = case_of(
        Kind::Loops,
        plan_of(1, 1, 1),
        Actions::Published,
        Expect::Asked(2),
    );
    assert!(rt; is_met(&rt, case));
}

// Whether each of two loops has counted two requests.
fn has_dealt(counters: &Counters) -> bool {
    counters.of_loop(0).read().asked == 2 && counters.of_loop(1).read().asked == 2
}

/// Whether four clients are served, two by each of two loops.
pub fn is_dealt<H: AllocGlobal + Net<Listener = TcpListener, Stream = TcpStream> + Wait + Clock>(
    rt: &H,
    address: SocketAddr,
    outside: &Outside,
) -> bool {
    (0..4).all(|_| is_served(rt, address)) && is_soon(rt, || has_dealt(&outside.counters))
}

#[test]
fn clients_are_dealt_to_the_loops_in_turn(rt: HostRuntime) {
    let plan = plan_of(1, 4, 1).on_loops(2);
    let case = case_of(Kind::Loops, plan, Actions::Dealt, Expect::Asked(4));
    assert!(rt; is_met(&rt, case));
}
