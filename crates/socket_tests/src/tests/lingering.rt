//! The close of a connection by the server, beside a client that still sends.

use super::actions::Actions;
use super::calls::{ASK_SLOW, Calls, FOUND_SLOW};
use super::clients::{connect, receives, send};
use super::plans::{Expect, Kind, attentive, case_of, patient, plan_of};
use super::servers::is_met;
use super::visits::{Visit, are_found};
use peer_runtime::Limits;
use std::net::{Net, SocketAddr, TcpListener, TcpStream};
use std::sync::Wait;
use std::thread;
use std::time::{Clock, Duration};

#[test]
fn what_was_not_read_resets_no_closing_reply(rt: HostRuntime) {
    assert!(rt; are_found(&rt, patient(), &[Visit::SendsMore; 2], 2));
}

#[test]
fn a_client_that_drips_is_not_read_for_ever(rt: HostRuntime) {
    let limits = Limits {
        linger: Duration::from_millis(200),
        ..attentive()
    };
    assert!(rt; are_found(&rt, limits, &[Visit::DripsBehind, Visit::Asks], 2));
}

/// Whether a client that was given up for its silence while it waited, and sends more then, gets its value and the end, and no
/// reset.
pub fn is_given_up_well<
    H: AllocGlobal + Net<Listener = TcpListener, Stream = TcpStream> + Wait + Clock,
>(rt: &H, address: SocketAddr, calls: &Calls) -> bool {
    let Some(stream) = connect(rt, address) else {
        return false;
    };
    let asked = send(&stream, ASK_SLOW) && calls.slow.is_called(rt);
    thread::sleep(rt, Duration::from_millis(600));
    let sent = send(&stream, b"G");
    thread::sleep(rt, Duration::from_millis(100));
    calls.slow.open();
    asked && sent && receives(rt.alloc(), &stream, FOUND_SLOW)
}

// On loops a client that waits is not silent.
#[test]
fn a_client_that_is_given_up_in_threads_has_its_reply(rt: HostRuntime) {
    let limits = Limits {
        silence: Duration::from_millis(100),
        ..attentive()
    };
    let plan = plan_of(1, 1, 1).within(limits);
    let case = case_of(Kind::Seats, plan, Actions::GivenUpWell, Expect::Asked(1));
    assert!(rt; is_met(&rt, case));
}
