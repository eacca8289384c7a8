//! Clients that wait for their values: for longer than one may be silent, and beside one that goes away.

use super::actions::Actions;
use super::calls::{ASK_SLOW, Calls};
use super::clients::{connect, has_value, is_answered, is_served, is_soon, send};
use super::plans::{Expect, Kind, case_of, patient, plan_of};
use super::servers::{Outside, is_met};
use peer_runtime::Limits;
use peer_stats::Counters;
use std::io::Read;
use std::net::{Net, SocketAddr, TcpListener, TcpStream};
use std::sync::Wait;
use std::thread;
use std::time::{Clock, Duration};
use stream_model::ASK_K;

// How many values a client waits for, one after the other.
const VALUES: u64 = 6;

// Whether a client gets a value for which it waits for longer than a second.
fn is_answered_late<H: Clock>(rt: &H, stream: &TcpStream, calls: &Calls) -> bool {
    calls.slow.close();
    let asked = send(stream, ASK_SLOW) && calls.slow.is_called(rt);
    thread::sleep(rt, Duration::from_millis(1200));
    calls.slow.open();
    asked && has_value(stream)
}

/// Whether a client gets all its values.
pub fn is_answered_each_time<
    H: AllocGlobal + Net<Listener = TcpListener, Stream = TcpStream> + Wait + Clock,
>(rt: &H, address: SocketAddr, calls: &Calls) -> bool {
    let Some(stream) = connect(rt, address) else {
        return false;
    };
    // The worker is asked for another key between two of them: whoever asks for a key again right behind its reply may join the
    // flight of that reply, for which no source is called once more.
    (0..VALUES).all(|_| is_answered_late(rt, &stream, calls) && is_answered(&stream))
}

// A tick is so short that it often falls into the turn in which the value has come, and is not yet sent.
#[test]
fn a_client_that_waits_is_not_silent(rt: HostRuntime) {
    let limits = Limits {
        tick: Duration::from_millis(1),
        silence_when_full: Duration::from_secs(1),
        ..patient()
    };
    let plan = plan_of(1, 1, 1).within(limits);
    let case = case_of(
        Kind::Loops,
        plan,
        Actions::AnsweredLate,
        Expect::Asked(2 * VALUES),
    );
    assert!(rt; is_met(&rt, case));
}

// Has a client wait for a value with all but a byte of another reply unread, so that it resets its connection as it goes.
fn waits_with_a_reply_unread(stream: &TcpStream, request: &[u8]) -> bool {
    let mut reader = stream;
    send(stream, ASK_K) && reader.read_exact(&mut [0]).is_ok() && send(stream, request)
}

// Waits until loops have read so many requests: each publishes that behind the turn in which it lists who waits.
fn await_asked<H: Clock>(rt: &H, counters: &Counters, count: u64) -> bool {
    is_soon(rt, || counters.read().loops.asked == count)
}

/// Whether two of three clients get the value for which all wait, where the one between them resets its connection. That this
/// was let go is seen by three more, for whom there was no room.
pub fn others_have_it<
    H: AllocGlobal + Net<Listener = TcpListener, Stream = TcpStream> + Wait + Clock,
>(rt: &H, address: SocketAddr, outside: &Outside) -> bool {
    let slow = &outside.calls.slow;
    let (Some(first), Some(second), Some(third)) = (
        connect(rt, address),
        connect(rt, address),
        connect(rt, address),
    ) else {
        return false;
    };
    let asked = send(&first, ASK_SLOW)
        && slow.is_called(rt)
        && waits_with_a_reply_unread(&second, ASK_SLOW)
        && send(&third, ASK_SLOW)
        && await_asked(rt, &outside.counters, 4);
    drop(second);
    let let_go = asked && (0..3).all(|_| is_served(rt, address));
    slow.open();
    let_go && has_value(&first) && has_value(&third)
}

// The last request of a client, for the key `slow`: behind it the server reads nothing more.
const ASK_SLOW_LAST: &[u8] =
    b"GET /_groupcache/echo/slow HTTP/1.1\r\nHost: h\r\nConnection: close\r\n\r\n";

/// Whether a client that resets its connection while its last value is looked up leaves its place to another one.
pub fn leaves_its_place<
    H: AllocGlobal + Net<Listener = TcpListener, Stream = TcpStream> + Wait + Clock,
>(rt: &H, address: SocketAddr, calls: &Calls) -> bool {
    let Some(stream) = connect(rt, address) else {
        return false;
    };
    let asked = waits_with_a_reply_unread(&stream, ASK_SLOW_LAST) && calls.slow.is_called(rt);
    drop(stream);
    asked && is_served(rt, address)
}

#[test]
fn a_client_that_waits_and_resets_is_let_go(rt: HostRuntime) {
    for (what, case) in [
        (
            "between others",
            case_of(
                Kind::Loops,
                plan_of(2, 3, 2),
                Actions::ResetsBetween,
                Expect::Asked(7),
            ),
        ),
        (
            "behind its last request",
            case_of(
                Kind::Loops,
                plan_of(2, 1, 2),
                Actions::LeavesItsPlace,
                Expect::Asked(3),
            ),
        ),
    ] {
        assert!(rt; is_met(&rt, case), "{what}");
    }
}
