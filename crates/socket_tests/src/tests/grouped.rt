//! The caches of several groups.

use super::actions::Actions;
use super::clients::{exchange, is_served, is_text};
use super::plans::{BOTH, Expect, case_of, plan_of};
use super::servers::is_met;
use peer_fill::Report;
use std::net::{Net, SocketAddr, TcpListener, TcpStream};
use std::sync::Wait;
use std::time::Clock;
use test_support::all_called;

const ASK_SQUARE: &[u8] =
    b"GET /_groupcache/square/3 HTTP/1.1\r\nHost: h\r\nConnection: close\r\n\r\n";

const FOUND_SQUARE: &[u8] =
    b"HTTP/1.1 200 OK\r\nContent-Type: application/x-protobuf\r\nContent-Length: 3\r\nConnection: close\r\n\r\n\x0A\x019";

/// Whether clients get a key of each of two groups, twice.
pub fn ask_groups<H: AllocGlobal + Net<Listener = TcpListener, Stream = TcpStream> + Wait + Clock>(
    rt: &H,
    address: SocketAddr,
) -> bool {
    is_served(rt, address)
        && is_served(rt, address)
        && is_text(&exchange(rt, address, ASK_SQUARE), FOUND_SQUARE)
        && is_text(&exchange(rt, address, ASK_SQUARE), FOUND_SQUARE)
}

#[test]
fn each_group_keeps_its_value(rt: HostRuntime) {
    let counted = Expect::Counted(Report {
        asked: 4,
        hits: 2,
        ..all_called(2)
    });
    for kind in BOTH {
        let plan = plan_of(1, 1, 4).caching(1000);
        let case = case_of(kind, plan, Actions::AskGroups, counted);
        assert!(rt; is_met(&rt, case), "at {kind:?}");
    }
}
