//! A server of the page in a thread of its own, beside its clients.

use crate::tests::worked::{BUILD, NUMBERS};
use peer_stats::{ASLEEP, Counters, ServerFacts, Stage, open_stats};
use std::alloc::Global;
use std::fs::Files;
use std::hash::RandomState;
use std::io::{Read, Write};
use std::net::{Net, SocketAddr, TcpListener, TcpStream};
use std::random::RandomSource;
use std::sync::Wait;
use std::test::Fail;
use std::thread::Threads;
use std::time::{Clock, Duration};
use std::{io, thread};

// What a client receives that sends these bytes, until the server closes.
fn exchange<H: Net<Listener = TcpListener, Stream = TcpStream> + Wait + Clock>(
    rt: &H,
    alloc: Global,
    address: SocketAddr,
    bytes: &[u8],
) -> Option<String> {
    let mut stream = TcpStream::connect(rt, address).ok()?;
    stream.write_all(bytes).ok()?;
    let mut received = Vec::new(alloc);
    stream.read_to_end(&mut received).ok()?;
    String::from_utf8(received).ok()
}

// Whether the reply to these bytes begins and ends so.
fn gets<H: AllocGlobal + Net<Listener = TcpListener, Stream = TcpStream> + Wait + Clock>(
    rt: &H,
    address: SocketAddr,
    bytes: &[u8],
    begin: &str,
    end: &str,
) -> bool {
    match exchange(rt, rt.alloc(), address, bytes) {
        Some(text) => text.as_str().starts_with(begin) && text.as_str().ends_with(end),
        None => false,
    }
}

// Whether a client that says nothing is let go, and the page tells by then that time has passed.
fn is_let_go<H: AllocGlobal + Net<Listener = TcpListener, Stream = TcpStream> + Wait + Clock>(
    rt: &H,
    address: SocketAddr,
    silent: io::Result<TcpStream>,
) -> bool {
    let Ok(mut silent) = silent else {
        return false;
    };
    let is_patient = silent
        .set_read_timeout(Some(Duration::from_secs(30)))
        .is_ok();
    let is_gone = matches!(silent.read(&mut [0u8; 1]), Ok(0));
    let begun = "\npeer_front_uptime_seconds 0\n";
    match exchange(
        rt,
        rt.alloc(),
        address,
        b"GET /metrics HTTP/1.1\r\nHost: h\r\n\r\n",
    ) {
        Some(page) => is_patient && is_gone && !page.as_str().contains(begun),
        None => false,
    }
}

// What clients see: the page, health, another path, another method; and that one which is silent is let go.
fn see<H: AllocGlobal + Net<Listener = TcpListener, Stream = TcpStream> + Wait + Clock>(
    rt: &H,
    address: SocketAddr,
) -> [bool; 5] {
    let silent = TcpStream::connect(rt, address);
    [
        gets(
            rt,
            address,
            b"GET /metrics HTTP/1.1\r\nHost: h\r\n\r\n",
            "HTTP/1.1 200 OK\r\nconnection: close\r\ncontent-type: text/plain; version=0.0.4; charset=utf-8\r\n",
            "\n",
        ),
        gets(
            rt,
            address,
            b"GET /healthz HTTP/1.1\r\nHost: h\r\n\r\n",
            "HTTP/1.1 200 OK\r\n",
            "\r\n\r\nok\n",
        ),
        gets(
            rt,
            address,
            b"GET / HTTP/1.1\r\nHost: h\r\n\r\n",
            "HTTP/1.1 404 Not Found\r\n",
            "\r\n\r\nno such page\n",
        ),
        gets(
            rt,
            address,
            b"POST /metrics HTTP/1.1\r\nHost: h\r\nContent-Length: 0\r\n\r\n",
            "HTTP/1.1 405 Method Not Allowed\r\n",
            "\r\n\r\nGET and HEAD are answered\n",
        ),
        is_let_go(rt, address, silent),
    ]
}

const READY: &[u8] = b"GET /readyz HTTP/1.1\r\nHost: h\r\n\r\n";

const HEALTH: &[u8] = b"GET /healthz HTTP/1.1\r\nHost: h\r\n\r\n";

const OK: &str = "HTTP/1.1 200 OK\r\n";

const NOT_NOW: &str = "HTTP/1.1 503 Service Unavailable\r\n";

// The seconds until a loop is seen to stand still, or to go on, at most.
const SECONDS: u32 = 12;

// Whether it comes to be so that the health is told by this status.
fn comes_to<H: AllocGlobal + Net<Listener = TcpListener, Stream = TcpStream> + Wait + Clock>(
    rt: &H,
    address: SocketAddr,
    status: &str,
    line: &str,
) -> bool {
    for _ in 0..SECONDS {
        if gets(rt, address, HEALTH, status, line) {
            return true;
        }
        thread::sleep(rt, Duration::from_secs(1));
    }
    false
}

// What clients see of how the server is: it starts, it serves, one of its loops stands still, goes on and sleeps, and it ends.
fn see_state<H: AllocGlobal + Net<Listener = TcpListener, Stream = TcpStream> + Wait + Clock>(
    rt: &H,
    address: SocketAddr,
    counters: &Counters,
) -> [bool; 7] {
    let starts = gets(rt, address, READY, NOT_NOW, "\r\n\r\nit starts\n");
    counters.publish_stage(Stage::Serves);
    let serves = gets(rt, address, READY, OK, "\r\n\r\nready\n");
    counters.of_loop(3).publish_turn(7);
    let still = comes_to(rt, address, NOT_NOW, "\r\n\r\na loop stands still\n");
    let unready = gets(rt, address, READY, NOT_NOW, "\r\n\r\na loop stands still\n");
    counters.of_loop(3).publish_turn(8);
    let goes_on = comes_to(rt, address, OK, "\r\n\r\nok\n");
    counters.of_loop(3).publish_turn(ASLEEP);
    counters.publish_stage(Stage::Ends);
    let ends = gets(rt, address, READY, NOT_NOW, "\r\n\r\nit ends\n");
    let healthy = gets(rt, address, HEALTH, OK, "\r\n\r\nok\n");
    [starts, serves, still, unready, goes_on, ends, healthy]
}

// Serves while the clients are there, and gives what they saw.
fn serve<H: Net<Listener = TcpListener, Stream = TcpStream> + Threads + Wait + Clock + Sync>(
    rt: &H,
) -> Option<([bool; 5], [bool; 7])>
where
    H: AllocGlobal + Files + RandomSource,
{
    let listener = TcpListener::bind(rt, "127.0.0.1:0").ok()?;
    let address = listener.local_addr().ok()?;
    let seed = RandomState::new(rt).ok()?;
    let (server, end) = open_stats(rt, rt.alloc(), listener, seed)?;
    let (counters, end) = (&Counters::new(), &end);
    thread::scope(thread::scope_env(), rt, move |scope| {
        let look = move || {
            let seen = (see(rt, address), see_state(rt, address, counters));
            end.end();
            seen
        };
        let Ok(looking) = scope.spawn(look) else {
            return None;
        };
        // Here, since files can be read in this thread alone.
        let facts = ServerFacts {
            groups: &[],
            services: &[],
            loops: 1,
            bounds: NUMBERS.bounds,
            build: BUILD,
        };
        server.run(rt, counters, facts, end);
        Some(looking.join(rt))
    })
}

#[test]
fn clients_get_the_page(rt: HostRuntime) -> Result<(), Fail> {
    assert_eq!(rt; serve(&rt), Some(([true; 5], [true; 7])));
    Ok(())
}
