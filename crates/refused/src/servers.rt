//! The server on a socket, for one client that is there before it.

use crate::connections::{THREE, THREE_REPLIES, is_whole};
use crate::pools::{CACHE_BYTES, adds_up};
use crate::seen::Seen;
use crate::window;
use peer_fill::{OpenFault, Report};
use peer_socket::{ServerFault, peer_server};
use peer_source::DemoSource;
use std::alloc::Global;
use std::io::{Read, Write};
use std::net::{Net, Shutdown, TcpListener, TcpStream};
use std::sync::Wait;
use std::thread::Threads;
use std::time::{Clock, Duration};
use test_support::seed;

// How many seconds the client waits at most.
const PATIENCE: u64 = 30;

/// Which growth of a server is refused.
#[derive(Clone, Copy, PartialEq)]
pub enum Which {
    First,
    Any,
}

// A listener with one client in its backlog, which sends three requests and ends its side.
fn meet<H: AllocGlobal + Net<Listener = TcpListener, Stream = TcpStream>>(
    rt: &H,
) -> Option<(TcpListener, TcpStream)> {
    let listener = TcpListener::bind(rt, "127.0.0.1:0").ok()?;
    let client = TcpStream::connect(rt, listener.local_addr().ok()?).ok()?;
    client
        .set_read_timeout(Some(Duration::from_secs(PATIENCE)))
        .ok()?;
    let mut sending = &client;
    sending.write_all(THREE).ok()?;
    client.shutdown(Shutdown::Write).ok()?;
    Some((listener, client))
}

// What a client received until its connection ended, in whatever way.
fn received(alloc: Global, client: &TcpStream) -> Vec<u8> {
    let mut bytes = Vec::new(alloc);
    let mut receiving = client;
    let _ = receiving.read_to_end(&mut bytes);
    bytes
}

// What a server was seen to do whose client received these bytes.
fn served(answered: &Result<Report, ServerFault>, bytes: &[u8], which: Which) -> Seen {
    match answered {
        Ok(report) => {
            let seen = if bytes == THREE_REPLIES {
                Seen::Answered
            } else {
                Seen::Refused.only_if(which == Which::Any, "the first growth is not the pool's")
            };
            seen.only_if(adds_up(report), "the report does not add up")
                .only_if(is_whole(bytes), "not a number of whole replies")
        }
        Err(ServerFault::Open(OpenFault::Memory)) => Seen::Refused,
        Err(ServerFault::Memory) => {
            Seen::Refused.only_if(which == Which::Any, "the first growth is not the pool's")
        }
        Err(ServerFault::Open(_)) => Seen::Wrong("a fault that is none"),
    }
}

/// `peer_server`. One that ends without a report has answered nobody.
pub fn server<
    H: AllocGlobal
        + Net<Listener = TcpListener, Stream = TcpStream>
        + Threads
        + Wait
        + Clock
        + Sync,
>(rt: &H, alloc: Global, which: Which) -> Option<Seen> {
    let seed = seed()?;
    let (listener, client) = meet(rt)?;
    window::begin(alloc);
    let answered = peer_server(rt, alloc, DemoSource, listener, 1, 1, 1, CACHE_BYTES, seed);
    window::end(alloc);
    let bytes = received(alloc, &client);
    let silent = answered.is_ok() || bytes.is_empty();
    Some(served(&answered, &bytes, which).only_if(silent, "a client was answered"))
}
