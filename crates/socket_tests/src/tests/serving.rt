//! Connections that end by themselves, of each server.

use super::actions::Actions;
use super::clients::{
    connect, exchange, exchange_and_end, is_answered_last, is_served, is_text, receives, send,
    served_client,
};
use super::plans::{BOTH, Expect, Kind, case_of, plan_of};
use super::servers::is_met;
use peer_fill::Report;
use std::net::{Net, SocketAddr, TcpListener, TcpStream};
use std::sync::Wait;
use std::time::Clock;
use stream_model::{ASK_K, ASK_K_LAST, FOUND_K, FOUND_K_LAST};

// What is written is the one text and then the other.
const FOUND_BOTH: &[u8] =
    b"HTTP/1.1 200 OK\r\nContent-Type: application/x-protobuf\r\nContent-Length: 3\r\n\r\n\x0A\x01k\
      HTTP/1.1 200 OK\r\nContent-Type: application/x-protobuf\r\nContent-Length: 3\r\nConnection: close\r\n\r\n\x0A\x01k";

// The two requests.
const ASK_BOTH: &[u8] =
    b"GET /_groupcache/echo/k HTTP/1.1\r\nHost: h\r\n\r\nGET /_groupcache/echo/k HTTP/1.1\r\nHost: h\r\nConnection: close\r\n\r\n";

/// Whether a client that asks twice in one text is answered.
pub fn ask_twice<H: AllocGlobal + Net<Listener = TcpListener, Stream = TcpStream> + Wait + Clock>(
    rt: &H,
    address: SocketAddr,
) -> bool {
    is_text(&exchange(rt, address, ASK_BOTH), FOUND_BOTH)
}

// What is counted where one key was asked for twice, the second time behind its reply.
const ONE_HIT: Report = Report {
    asked: 2,
    hits: 1,
    led: 1,
    joined: 0,
    strangers: 0,
    calls: 1,
    rehits: 0,
    left: 0,
};

/// Whether a client that has its reply gets another one.
pub fn ask_behind<H: AllocGlobal + Net<Listener = TcpListener, Stream = TcpStream> + Wait + Clock>(
    rt: &H,
    address: SocketAddr,
) -> bool {
    match served_client(rt, address) {
        Some(stream) => is_answered_last(rt.alloc(), &stream),
        None => false,
    }
}

#[test]
fn a_client_asks_twice(rt: HostRuntime) {
    let (none, large) = (plan_of(2, 1, 1), plan_of(2, 1, 1).caching(1_048_576));
    let asked = Expect::Asked(2);
    let hit = Expect::Counted(ONE_HIT);
    for (what, case) in [
        (
            "by the usual server",
            case_of(Kind::Usual, large, Actions::AskTwice, asked),
        ),
        (
            "by seats",
            case_of(Kind::Seats, none, Actions::AskTwice, asked),
        ),
        (
            "by loops",
            case_of(Kind::Loops, none, Actions::AskTwice, asked),
        ),
        (
            "by loops that keep",
            case_of(Kind::Loops, large, Actions::AskTwice, asked),
        ),
        (
            "kept by the usual server",
            case_of(Kind::Usual, large, Actions::AskBehind, hit),
        ),
        (
            "kept by seats",
            case_of(Kind::Seats, large, Actions::AskBehind, hit),
        ),
        (
            "kept by loops",
            case_of(Kind::Loops, large, Actions::AskBehind, hit),
        ),
    ] {
        assert!(rt; is_met(&rt, case), "{what}");
    }
}

/// Whether two clients are answered, of which the later one asks first and the other one twice, and then a third one.
pub fn ask_in_turn<H: AllocGlobal + Net<Listener = TcpListener, Stream = TcpStream> + Wait + Clock>(
    rt: &H,
    address: SocketAddr,
) -> bool {
    let (Some(one), Some(other)) = (connect(rt, address), connect(rt, address)) else {
        return false;
    };
    let sent = send(&other, ASK_K_LAST) && send(&one, ASK_BOTH);
    let first = sent && receives(rt.alloc(), &one, FOUND_BOTH);
    drop(one);
    let second = receives(rt.alloc(), &other, FOUND_K_LAST);
    drop(other);
    first && second && is_text(&exchange_and_end(rt, address, ASK_K), FOUND_K)
}

#[test]
fn more_clients_than_connections(rt: HostRuntime) {
    let plan = plan_of(1, 1, 3).on_loops(2);
    for kind in BOTH {
        let case = case_of(kind, plan, Actions::AskInTurn, Expect::Asked(4));
        assert!(rt; is_met(&rt, case), "at {kind:?}");
    }
}

// A client that goes away with replies unread, which resets its connection.
const ASK_LONG: &[u8] = b"GET /_groupcache/fill/1048576 HTTP/1.1\r\nHost: h\r\n\r\n\
      GET /_groupcache/fill/1048576 HTTP/1.1\r\nHost: h\r\n\r\n\
      GET /_groupcache/fill/1048576 HTTP/1.1\r\nHost: h\r\n\r\n\
      GET /_groupcache/fill/1048576 HTTP/1.1\r\nHost: h\r\n\r\n";

/// Whether a client is served behind three that reset their connections.
pub fn reset_thrice<
    H: AllocGlobal + Net<Listener = TcpListener, Stream = TcpStream> + Wait + Clock,
>(rt: &H, address: SocketAddr) -> bool {
    (0..3).all(|_| match connect(rt, address) {
        Some(stream) => send(&stream, ASK_LONG),
        None => false,
    }) && is_served(rt, address)
}

#[test]
fn a_client_resets(rt: HostRuntime) {
    let plan = plan_of(1, 1, 4).caching(2_097_152);
    for kind in BOTH {
        let case = case_of(kind, plan, Actions::ResetThrice, Expect::Ends);
        assert!(rt; is_met(&rt, case), "at {kind:?}");
    }
}

#[test]
fn each_server_refuses_each_number(rt: HostRuntime) {
    let seats = [
        (plan_of(0, 1, 1), Expect::Workers),
        (plan_of(17, 1, 1), Expect::Workers),
        (plan_of(1, 0, 1), Expect::Conns),
        (plan_of(1, 17, 1), Expect::Conns),
    ];
    for (plan, expect) in seats {
        let numbers = (plan.workers, plan.connections);
        let case = case_of(Kind::Usual, plan, Actions::Nothing, expect);
        assert!(rt; is_met(&rt, case), "seats at {numbers:?}");
    }
    let one = plan_of(1, 1, 1);
    let loops = [
        (plan_of(0, 1, 1), Expect::Workers),
        (plan_of(17, 1, 1), Expect::Workers),
        (one.on_loops(0), Expect::Conns),
        (one.on_loops(17), Expect::Conns),
        (one.filling(Some(1)).on_loops(0), Expect::Workers),
        (one.filling(Some(1)).on_loops(17), Expect::Workers),
    ];
    for (plan, expect) in loops {
        let numbers = (plan.workers, plan.loops);
        let case = case_of(Kind::Loops, plan, Actions::Nothing, expect);
        assert!(rt; is_met(&rt, case), "loops at {numbers:?}");
    }
}
