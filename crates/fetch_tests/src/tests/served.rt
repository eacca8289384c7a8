//! A whole server in front of an origin: its loops wake the thread that fetches, and that thread wakes the loops.
ghost use Rattle.peer_fetch.specs.Threads.{Allows};

use super::lookup::LOOPBACK;
use super::origin::{Told, serve};
use super::running::{Prepared, patient, plan_of, prepare};
use peer_fetch::FetchPlan;
use peer_fill::{CachePlan, Caching, Report};
use peer_loop::{Fillers, Settings, Stop, serve_fetching};
use peer_origin::{OriginSource, Wires};
use peer_runtime::{Host, Limits, Network};
use peer_source::Source;
use peer_stats::Counters;
use std::alloc::Global;
use std::hash::RandomState;
use std::io::{Read, Write};
use std::net::{Net, SocketAddr, TcpListener, TcpStream};
use std::random::RandomSource;
use std::sync::Wait;
use std::sync::atomic::Ordering::SeqCst;
use std::test::Fail;
use std::thread;
use std::thread::Threads;
use std::time::{Clock, Duration};

// How many clients ask at once, and so how many values are under way. There are 16 seats that could wait for one each.
const CLIENTS: u8 = 40;

// A request for the key 00 that closes.
const ASK: &[u8; 65] = b"GET /_groupcache/echo/00 HTTP/1.1\r\nHost: h\r\nConnection: close\r\n\r\n";

// The digits of a number below 100.
fn digits(number: u8) -> [u8; 2] {
    [b'0' + number / 10 % 10, b'0' + number % 10]
}

// A client that has asked for the key of its number.
fn ask<H: Network>(rt: &H, address: SocketAddr, number: u8) -> Option<TcpStream> {
    let stream = TcpStream::connect(rt, address).ok()?;
    stream.set_read_timeout(Some(Duration::from_secs(50))).ok()?;
    let mut request = *ASK;
    request[22..24].copy_from_slice(&digits(number));
    let mut writer: &TcpStream = &stream;
    writer.write_all(&request).ok()?;
    Some(stream)
}

// Whether the value that a client gets is the key of its number.
fn is_answered(alloc: Global, stream: &TcpStream, number: u8) -> bool {
    let mut reader = stream;
    let mut reply = Vec::new(alloc);
    reader.read_to_end(&mut reply).is_ok()
        && reply.starts_with(b"HTTP/1.1 200 OK\r\n")
        && reply.ends_with(&digits(number))
}

// Asks for a key by each client, and then looks at all replies.
fn ask_all<H: Network>(rt: &H, alloc: Global, address: SocketAddr) -> Option<bool> {
    let mut clients = Vec::new(alloc);
    for number in 0..CLIENTS {
        clients.push(ask(rt, address, number)?).ok()?;
    }
    let mut right = true;
    for number in 0..CLIENTS {
        right &= is_answered(alloc, clients.get(number as usize)?, number);
    }
    Some(right)
}

// Serves while the clients ask.
fn serve_clients<S: Source + Send + Sync, H: Host + AllocGlobal + Wires>(
    rt: &H,
    source: S,
    listener: TcpListener,
    settings: &Settings<'_>,
    plan: FetchPlan<'_>,
    address: SocketAddr,
) -> (Option<Report>, Option<bool>)
    requires { Allows H.carried (S.answers source) plan }
{
    thread::join(
        rt,
        move || -> Option<Report>
            requires { Allows H.carried (S.answers source) plan }
        { serve_fetching(rt, rt.alloc(), source, listener, settings, Some(plan)).ok() },
        move || -> Option<bool> {
            let asked = ask_all(rt, rt.alloc(), address);
            settings.stop.stop();
            asked
        },
    )
}

// Serves in front of an origin that holds its replies back until as many requests are open as there are clients. The sockets are the
// origin's, and the server's with its address.
fn serve_held<S: Source + Send + Sync, H: Host + AllocGlobal + Wires>(
    rt: &H,
    source: S,
    sockets: (TcpListener, TcpListener, SocketAddr),
    told: &Told,
    settings: &Settings<'_>,
    plan: FetchPlan<'_>,
) -> bool
    requires { Allows H.carried (S.answers source) plan }
{
    let (origin, listener, address) = sockets;
    let ((), (report, asked)) = thread::join(
        rt,
        move || { serve(rt, rt.alloc(), origin, CLIENTS as usize, told) },
        move || -> (Option<Report>, Option<bool>)
            requires { Allows H.carried (S.answers source) plan }
        {
            let seen = serve_clients(rt, source, listener, settings, plan, address);
            told.stopping.store(true, SeqCst);
            seen
        },
    );
    report.is_some() && asked == Some(true)
}

// What a server has from outside.
#[derive(Drop)]
struct Outside {
    counters: Counters,
    stop: Stop,
    told: Told,
}

// How it serves: a thread fetches, and no value is kept.
fn settings_of<'a>(outside: &'a Outside, seed: RandomState) -> Settings<'a> {
    Settings {
        fillers: Fillers::Threads(1),
        loops: 1,
        connections: 100,
        memory: 1_048_576,
        accepts: None,
        caching: Caching {
            plan: CachePlan::Single(0),
            own: &[],
            seed,
        },
        limits: Limits {
            tick: Duration::from_secs(60),
            ..Limits::usual()
        },
        counters: &outside.counters,
        records: None,
        stop: &outside.stop,
    }
}

// Serves in front of a prepared origin, and says whether each client got its value.
fn serve_prepared<
    'x,
    H: AllocGlobal
        + RandomSource
        + Net<Listener = TcpListener, Stream = TcpStream>
        + Threads
        + Wait
        + Clock
        + Sync
        + Wires,
>(rt: &'x H, outside: &'x Outside) -> Option<bool> {
    let seed = RandomState::new(rt).ok()?;
    let server = TcpListener::bind(rt, "127.0.0.1:0").ok()?;
    let address = server.local_addr().ok()?;
    let Prepared { listener, origins } = prepare(rt, rt.alloc(), &[(b"echo", LOOPBACK)])?;
    let source: OriginSource<'_, H> = OriginSource::new(origins);
    let Ok(endpoints) = source.endpoints(rt.alloc()) else {
        return None;
    };
    let fetched = Counters::new();
    let plan = plan_of(endpoints.as_slice(), patient(), &fetched);
    let settings = settings_of(outside, seed);
    let sockets = (listener, server, address);
    Some(serve_held(rt, source, sockets, &outside.told, &settings, plan))
}

#[test]
fn a_server_has_forty_values_under_way(rt: HostRuntime) -> Result<(), Fail> {
    let outside = Outside {
        counters: Counters::new(),
        stop: Stop::new(),
        told: Told::new(),
    };
    assert_eq!(rt; serve_prepared(&rt, &outside), Some(true));
    let told = &outside.told;
    assert_eq!(rt;
        [told.requests.load(SeqCst), told.open.load(SeqCst)],
        [40; 2]
    );
    Ok(())
}
