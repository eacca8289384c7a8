//! Clients that a server gives up, of each server.

use super::actions::Actions;
use super::clients::{connect, is_served, send};
use super::plans::{Expect, Kind, attentive, case_of, plan_of};
use super::servers::is_met;
use super::visits::{Visit, are_found};
use peer_runtime::Limits;
use std::net::{Net, SocketAddr, TcpListener, TcpStream};
use std::sync::Wait;
use std::time::{Clock, Duration};
use stream_model::ASK_K;

// A request that came whole, and the beginning of another.
const ASK_AND_MORE: &[u8] = b"GET /_groupcache/echo/k HTTP/1.1\r\nHost: h\r\n\r\nGET /_gr";

// Each client sends a request, or the beginning of another too, and is silent then, or sends a request a byte at a time: it has
// the reply to what came whole and loses its place, and the next one has its own.
#[test]
fn a_client_that_is_silent_or_slow_is_closed(rt: HostRuntime) {
    let time = Duration::from_millis(100);
    let always = Limits {
        silence: time,
        ..attentive()
    };
    let when_full = Limits {
        silence_when_full: time,
        ..attentive()
    };
    let slow = Limits {
        request_when_full: time,
        linger: time,
        ..attentive()
    };
    let silent = Visit::FallsSilent(ASK_K);
    let within = Visit::FallsSilent(ASK_AND_MORE);
    for (what, limits, visit, asked) in [
        ("silent", always, silent, 2),
        ("silent within a request", always, within, 2),
        ("silent, when full", when_full, silent, 2),
        ("silent within a request, when full", when_full, within, 2),
        ("slow, when full", slow, Visit::Drips, 1),
    ] {
        assert!(rt;
            are_found(&rt, limits, &[visit, Visit::Asks], asked),
            "{what}"
        );
    }
}

// A loop that has no clients sleeps, and is woken by the first that comes. And a request takes as long as it is not answered,
// and not as long as the client was idle before it.
#[test]
fn a_client_that_is_late_or_was_idle_is_not_closed(rt: HostRuntime) {
    let silent = Limits {
        silence: Duration::from_secs(1),
        ..attentive()
    };
    let slow = Limits {
        request_when_full: Duration::from_secs(2),
        ..attentive()
    };
    let late = Visit::AsksLate(1_500);
    for (what, limits, visits, asked) in [
        ("late", silent, [late, late], 2),
        ("idle", slow, [Visit::PausesWithin(3000), Visit::Asks], 3),
    ] {
        assert!(rt; are_found(&rt, limits, &visits, asked), "{what}");
    }
}

/// Whether a client beside one that asks so often and takes nothing is served.
pub fn ask_beside_greedy<
    H: AllocGlobal + Net<Listener = TcpListener, Stream = TcpStream> + Wait + Clock,
>(rt: &H, address: SocketAddr, count: u32) -> bool {
    let Some(held) = connect(rt, address) else {
        return false;
    };
    let sent = (0..count).all(|_| {
        send(
            &held,
            b"GET /_groupcache/fill/1048576 HTTP/1.1\r\nHost: h\r\n\r\n",
        )
    });
    let served = is_served(rt, address);
    drop(held);
    sent && served
}

// A loop judges no more requests of a client that takes nothing than it has room for.
#[test]
fn a_client_that_takes_nothing_is_closed(rt: HostRuntime) {
    let limits = Limits {
        unread: Duration::from_millis(100),
        ..attentive()
    };
    let plan = plan_of(1, 1, 2).within(limits).caching(2_097_152);
    for (kind, count, expect) in [
        (Kind::Seats, 8, Expect::Asked(9)),
        (Kind::Loops, 64, Expect::Ends),
    ] {
        let case = case_of(kind, plan, Actions::BesideGreedy(count), expect);
        assert!(rt; is_met(&rt, case), "at {kind:?}");
    }
}

#[test]
fn the_usual_limits_are_those_that_users_are_told(rt: HostRuntime) {
    let told = Limits {
        tick: Duration::from_secs(1),
        silence: Duration::from_secs(60),
        silence_when_full: Duration::from_secs(1),
        request_when_full: Duration::from_secs(10),
        unread: Duration::from_secs(10),
        linger: Duration::from_secs(1),
        pause: Duration::from_millis(10),
    };
    assert_eq!(rt; Limits::usual(), told);
}
