//! A loop that stood still: those who asked meanwhile were not silent, however many they are.

use super::actions::Actions;
use super::calls::{ASK_SLOW, Calls};
use super::clients::{connect, has_reply, send, served_client};
use super::plans::{Expect, Kind, attentive, case_of, plan_of};
use super::servers::is_met;
use peer_runtime::Limits;
use std::net::{Net, SocketAddr, TcpListener, TcpStream};
use std::sync::Wait;
use std::thread;
use std::time::{Clock, Duration};
use stream_model::ASK_K;

// How many clients ask while the loop stands still: more than one wait reports.
const CROWD: usize = 300;

// Clients of whom each has asked once and has its reply.
fn crowd_of<H: AllocGlobal + Net<Listener = TcpListener, Stream = TcpStream> + Wait + Clock>(
    rt: &H,
    address: SocketAddr,
) -> Option<Vec<TcpStream>> {
    let mut crowd = Vec::new(rt.alloc());
    for _ in 0..CROWD {
        crowd.push(served_client(rt, address)?).ok()?;
    }
    Some(crowd)
}

/// Whether all have their replies who ask a loop that stands still for longer than a client may be silent.
pub fn are_answered<
    H: AllocGlobal + Net<Listener = TcpListener, Stream = TcpStream> + Wait + Clock,
>(rt: &H, address: SocketAddr, calls: &Calls) -> bool {
    let (Some(crowd), Some(slow)) = (crowd_of(rt, address), connect(rt, address)) else {
        return false;
    };
    let stands_still = send(&slow, ASK_SLOW) && calls.slow.is_called(rt);
    let asked = crowd.iter().all(|stream| send(stream, ASK_K));
    thread::sleep(rt, Duration::from_secs(6));
    calls.slow.open();
    stands_still && asked && crowd.iter().all(|stream| has_reply(stream))
}

#[test]
fn those_who_ask_a_loop_that_stands_still_are_not_silent(rt: HostRuntime) {
    let limits = Limits {
        silence: Duration::from_secs(5),
        ..attentive()
    };
    let plan = plan_of(1, 2 * CROWD, 1).within(limits);
    let plan = plan.filling(Some(CROWD as u64 + 1));
    let expect = Expect::Asked(2 * (CROWD as u64) + 1);
    let case = case_of(Kind::Loops, plan, Actions::StandsStill, expect);
    assert!(rt; is_met(&rt, case));
}
