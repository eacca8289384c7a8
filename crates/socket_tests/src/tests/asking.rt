//! Clients that ask for many keys, one after the other or all at once, of each server: its threads sleep, and are woken.

use super::actions::Actions;
use super::calls::Calls;
use super::clients::{connect, receive, send};
use super::plans::{BOTH, Expect, Held, Kind, case_of, plan_of};
use super::servers::is_met;
use std::alloc::Global;
use std::io::Read;
use std::net::{Net, SocketAddr, TcpListener, TcpStream};
use std::sync::Wait;
use std::thread;
use std::time::{Clock, Duration};
use stream_model::{ASK_K_LAST, FOUND_K_LAST};
use test_support::all_called;

// The digits of a number below 100,000.
fn digits(number: u32) -> [u8; 5] {
    let mut digits = [0; 5];
    let mut rest = number;
    for digit in digits.iter_mut().rev() {
        *digit = b'0' + (rest % 10) as u8;
        rest /= 10;
    }
    digits
}

// For how many keys a client asks whose calls last longer from key to key: the calls of some thousands begin anew.
const MOMENTS: u32 = 3_999;

// A request for the key 00000.
const ASK_NUMBER: &[u8; 49] = b"GET /_groupcache/echo/00000 HTTP/1.1\r\nHost: h\r\n\r\n";

// The reply to it.
const FOUND_NUMBER: &[u8; 83] =
    b"HTTP/1.1 200 OK\r\nContent-Type: application/x-protobuf\r\nContent-Length: 7\r\n\r\n\x0A\x0500000";

// Asks for one key, and says whether its reply came.
fn ask_once(stream: &TcpStream, key: &[u8; 5]) -> bool {
    let mut request = *ASK_NUMBER;
    request[22..27].copy_from_slice(key);
    let mut wanted = *FOUND_NUMBER;
    wanted[78..].copy_from_slice(key);
    let mut reader = stream;
    let mut reply = [0; 83];
    send(stream, &request) && reader.read_exact(&mut reply).is_ok() && reply == wanted
}

/// Asks for so many keys, one after the other, and says whether each reply came.
pub fn ask_each<H: AllocGlobal + Net<Listener = TcpListener, Stream = TcpStream> + Wait + Clock>(
    rt: &H,
    address: SocketAddr,
    count: u32,
) -> bool {
    match connect(rt, address) {
        Some(stream) => (0..count).all(|number| ask_once(&stream, &digits(number))),
        None => false,
    }
}

#[test]
fn a_fill_comes_at_each_moment_of_falling_asleep(rt: HostRuntime) {
    let plan = plan_of(1, 1, 1).holding(Held::Longer);
    for kind in BOTH {
        let case = case_of(
            kind,
            plan,
            Actions::AskEach(MOMENTS),
            Expect::Asked(MOMENTS as u64),
        );
        assert!(rt; is_met(&rt, case), "at {kind:?}");
    }
}

/// So many requests, each for a key of its own from this number on, and one that closes.
pub fn many_requests(alloc: Global, first: u32, count: u32) -> Option<Vec<u8>> {
    let mut bytes = Vec::new(alloc);
    for number in 0..count {
        bytes.extend_from_slice(b"GET /_groupcache/echo/").ok()?;
        bytes
            .extend_from_slice(&digits(first.saturating_add(number)))
            .ok()?;
        bytes
            .extend_from_slice(b" HTTP/1.1\r\nHost: h\r\n\r\n")
            .ok()?;
    }
    bytes.extend_from_slice(ASK_K_LAST).ok()?;
    Some(bytes)
}

// For how many keys each of six clients asks.
const SIX_KEYS: u32 = 300;

// Sends the requests on each connection, and says whether as many replies come as there are requests, and the end.
fn all_answered(alloc: Global, clients: &[Option<TcpStream>], requests: &[Vec<u8>]) -> bool {
    let mut sent = true;
    for i in 0..clients.len() {
        sent &= match (clients.get(i), requests.get(i)) {
            (Some(Some(stream)), Some(requests)) => send(stream, requests),
            _ => false,
        };
    }
    let received = clients.iter().all(|client| match client {
        Some(stream) => match receive(alloc, stream) {
            Some(bytes) => bytes.len() == SIX_KEYS as usize * 83 + 98
                && bytes.ends_with(FOUND_K_LAST),
            None => false,
        },
        None => false,
    });
    sent && received
}

/// Six clients ask for 300 keys each, and for one more. The keys of each begin so many behind those of the one before.
pub fn six_ask<H: AllocGlobal + Net<Listener = TcpListener, Stream = TcpStream> + Wait + Clock>(
    rt: &H,
    address: SocketAddr,
    apart: u32,
) -> bool {
    let clients: [Option<TcpStream>; 6] = [
        connect(rt, address),
        connect(rt, address),
        connect(rt, address),
        connect(rt, address),
        connect(rt, address),
        connect(rt, address),
    ];
    let mut requests = Vec::new(rt.alloc());
    for i in 0..6u32 {
        let Some(more) = many_requests(rt.alloc(), i.saturating_mul(apart), SIX_KEYS) else {
            return false;
        };
        if requests.push(more).is_err() {
            return false;
        }
    }
    all_answered(rt.alloc(), &clients, &requests)
}

// The same keys, by threads and by loops, and keys of their own: more jobs than a loop fills in one turn, and than the queue has
// room for. And one client alone asks loops, which sleep between two requests.
#[test]
fn clients_ask_for_many_keys_at_once(rt: HostRuntime) {
    let asked = Expect::Asked(6 * (SIX_KEYS as u64 + 1));
    let plan = plan_of(1, 6, 1).on_loops(3);
    let crowd = plan_of(1, 100, 1).filling(Some(6));
    let one = plan_of(1, 1, 1).filling(Some(1));
    for (what, case) in [
        (
            "seats",
            case_of(Kind::Seats, plan, Actions::SixAsk(0), asked),
        ),
        (
            "loops",
            case_of(Kind::Loops, plan, Actions::SixAsk(0), asked),
        ),
        (
            "a loop that fills",
            case_of(Kind::Loops, crowd, Actions::SixAsk(1_000), asked),
        ),
        (
            "three loops that fill",
            case_of(
                Kind::Loops,
                crowd.on_loops(3),
                Actions::SixAsk(1_000),
                asked,
            ),
        ),
        (
            "a loop that fills for one",
            case_of(
                Kind::Loops,
                one,
                Actions::AskEach(300),
                Expect::Counted(all_called(300)),
            ),
        ),
    ] {
        assert!(rt; is_met(&rt, case), "{what}");
    }
}

/// So many clients ask for so many keys of their own each, and for one more. Then the source may be called, and each gets its
/// replies.
pub fn each_asks<H: AllocGlobal + Net<Listener = TcpListener, Stream = TcpStream> + Wait + Clock>(
    rt: &H,
    address: SocketAddr,
    count: u32,
    keys: u32,
    calls: &Calls,
) -> bool {
    let clients = all_sent(rt, address, count, keys);
    thread::sleep(rt, Duration::from_millis(300));
    calls.slow.open();
    let length = (keys as usize).wrapping_mul(83).wrapping_add(98);
    match clients {
        Some(clients) => clients.iter().all(|stream| match receive(rt.alloc(), stream) {
            Some(bytes) => bytes.len() == length,
            None => false,
        }),
        None => false,
    }
}

// So many clients that have asked for so many keys of their own each, and for one more.
fn all_sent<H: AllocGlobal + Net<Listener = TcpListener, Stream = TcpStream> + Wait + Clock>(
    rt: &H,
    address: SocketAddr,
    count: u32,
    keys: u32,
) -> Option<Vec<TcpStream>> {
    let mut clients = Vec::new(rt.alloc());
    for number in 0..count {
        let stream = connect(rt, address)?;
        let requests = many_requests(rt.alloc(), number.saturating_mul(keys), keys)?;
        if !send(&stream, &requests) {
            return None;
        }
        clients.push(stream).ok()?;
    }
    Some(clients)
}

// The queue of jobs has room for 256: who finds it full, and waits for no other fill, is told once there is room.
#[test]
fn more_clients_ask_than_the_queue_has_room_for(rt: HostRuntime) {
    for (kind, clients, keys, asked) in [
        (Kind::Seats, 16, 40, 16 * 41),
        (Kind::Loops, 300, 8, 300 * 9),
    ] {
        let plan = plan_of(1, clients, 1).holding(Held::Numbers);
        let actions = Actions::EachAsks(clients as u32, keys);
        let case = case_of(kind, plan, actions, Expect::Asked(asked));
        assert!(rt; is_met(&rt, case), "at {kind:?}");
    }
}
