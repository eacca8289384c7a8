//! Two connections, where the fill of one waits for that of the other, of each server.

use super::actions::Actions;
use super::calls::{ASK_SLOW, Calls};
use super::clients::{connect, has_value, is_answered_last, send};
use super::plans::{Expect, Kind, case_of, plan_of};
use super::servers::is_met;
use std::net::{Net, SocketAddr, TcpListener, TcpStream};
use std::sync::Wait;
use std::time::Clock;

/// Two clients are there, of which one asks for a value that is looked up until the other has its own: whether both get theirs. The
/// one that waits connected later where that is wanted.
pub fn ask_both<H: AllocGlobal + Net<Listener = TcpListener, Stream = TcpStream> + Wait + Clock>(
    rt: &H,
    address: SocketAddr,
    later_first: bool,
    calls: &Calls,
) -> bool {
    let (Some(one), Some(other)) = (connect(rt, address), connect(rt, address)) else {
        return false;
    };
    let (first, second) = if later_first {
        (&other, &one)
    } else {
        (&one, &other)
    };
    let asked = send(first, ASK_SLOW) && calls.slow.is_called(rt);
    let served = is_answered_last(rt.alloc(), second);
    calls.slow.open();
    asked && served && has_value(first)
}

#[test]
fn a_fill_waits_for_that_of_another_connection(rt: HostRuntime) {
    for (kind, later_first) in [
        (Kind::Usual, true),
        (Kind::Seats, false),
        (Kind::Loops, true),
        (Kind::Loops, false),
    ] {
        let actions = Actions::AskBoth(later_first);
        let case = case_of(kind, plan_of(2, 2, 1), actions, Expect::Asked(2));
        assert!(rt; is_met(&rt, case), "at {kind:?} {later_first:?}");
    }
}
