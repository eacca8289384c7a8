//! A server of each kind in a thread of its own, beside its clients.

use super::actions::is_seen;
use super::calls::{Calls, Waiting};
use super::plans::{Case, Ended, Kind, Plan};
use peer_fill::{CachePlan, Caching, OpenFault, Report};
use peer_loop::{Stop, serve_loops};
use peer_origin::Wires;
use peer_socket::{peer_server, serve_within};
use peer_stats::Counters;
use std::hash::RandomState;
use std::net::{Net, SocketAddr, TcpListener, TcpStream};
use std::random::RandomSource;
use std::sync::Wait;
use std::thread;
use std::thread::Threads;
use std::time::Clock;
use test_support::Hooked;

/// What a server has from outside: what it counts on loops, by what it is told to end there, and the calls of its source.
#[derive(Drop)]
pub struct Outside {
    pub counters: Counters,
    pub stop: Stop,
    pub calls: Calls,
}

impl Outside {
    // Nothing was counted or called, and no server was told to end.
    fn new() -> Outside {
        Outside {
            counters: Counters::new(),
            stop: Stop::new(),
            calls: Calls::new(),
        }
    }
}

// A server in threads that serves as the plan says.
fn seats_of(plan: &Plan, seed: RandomState) -> peer_socket::Settings {
    peer_socket::Settings {
        workers: plan.workers,
        conns: plan.connections,
        rounds: plan.rounds,
        cache_bytes: plan.cache_bytes,
        seed,
        limits: plan.limits,
    }
}

// A server on loops that serves as the plan says.
fn loops_of<'a>(outside: &'a Outside, plan: &Plan, seed: RandomState) -> peer_loop::Settings<'a> {
    peer_loop::Settings {
        fillers: plan.fillers,
        loops: plan.loops,
        connections: plan.connections,
        memory: 1_048_576,
        accepts: plan.accepts,
        caching: Caching {
            plan: CachePlan::Single(plan.cache_bytes),
            own: &[],
            seed,
        },
        limits: plan.limits,
        counters: &outside.counters,
        records: None,
        stop: &outside.stop,
    }
}

// How a server ended whose pool was not opened.
fn unopened(fault: OpenFault) -> Ended {
    match fault {
        OpenFault::Workers => Ended::Workers,
        OpenFault::Conns => Ended::Conns,
        OpenFault::Groups | OpenFault::Memory => Ended::Badly,
    }
}

// How a server in threads ended.
fn of_seats(answered: Result<Report, peer_socket::ServerFault>) -> Ended {
    match answered {
        Ok(report) => Ended::Well(report),
        Err(peer_socket::ServerFault::Open(fault)) => unopened(fault),
        Err(peer_socket::ServerFault::Memory) => Ended::Badly,
    }
}

// How a server on loops ended.
fn of_loops(answered: Result<Report, peer_loop::ServerFault>) -> Ended {
    match answered {
        Ok(report) => Ended::Well(report),
        Err(peer_loop::ServerFault::Open(fault)) => unopened(fault),
        Err(peer_loop::ServerFault::Refused) => Ended::Badly,
    }
}

// Serves as the plan says.
fn serve<
    H: Net<Listener = TcpListener, Stream = TcpStream> + Threads + Wait + Clock + Sync + Wires,
>(
    rt: &H,
    listener: TcpListener,
    seed: RandomState,
    kind: Kind,
    plan: &Plan,
    outside: &Outside,
) -> Ended
where
    H: AllocGlobal,
{
    let alloc = rt.alloc();
    let source = Hooked {
        hook: Waiting {
            calls: &outside.calls,
            held: plan.held,
        },
    };
    match kind {
        Kind::Usual => of_seats(peer_server(
            rt,
            alloc,
            source,
            listener,
            plan.workers,
            plan.connections,
            plan.rounds,
            plan.cache_bytes,
            seed,
        )),
        Kind::Seats => of_seats(serve_within(rt, alloc, source, listener, &seats_of(plan, seed))),
        Kind::Loops => of_loops(serve_loops(
            rt,
            alloc,
            source,
            listener,
            &loops_of(outside, plan, seed),
        )),
    }
}

// Whether the clients see what they are to see. Behind them all calls may go on, and a server that is to be told ends.
fn is_seen_by_clients<
    H: AllocGlobal + Net<Listener = TcpListener, Stream = TcpStream> + Wait + Clock,
>(rt: &H, address: SocketAddr, case: Case<'_>, outside: &Outside) -> bool {
    let seen = is_seen(rt, address, case.actions, outside);
    outside.calls.open_all();
    if case.plan.accepts.is_none() {
        outside.stop.stop();
    }
    seen
}

// How a server ended that serves at this listener while its clients run, and whether these saw what they are to see.
fn run_both<
    H: Net<Listener = TcpListener, Stream = TcpStream> + Threads + Wait + Clock + Sync + Wires,
>(
    rt: &H,
    (listener, address): (TcpListener, SocketAddr),
    seed: RandomState,
    case: Case<'_>,
    outside: &Outside,
) -> (Ended, bool)
where
    H: AllocGlobal,
{
    thread::scope(thread::scope_env(), rt, move |scope| -> (Ended, bool) {
        let run = move || serve(rt, listener, seed, case.kind, &case.plan, outside);
        match scope.spawn(run) {
            Ok(server) => {
                let seen = is_seen_by_clients(rt, address, case, outside);
                (server.join(rt), seen)
            }
            Err(_) => (Ended::Badly, false),
        }
    })
}

// A listener on a free port of the loopback address.
fn listen<H: Net<Listener = TcpListener, Stream = TcpStream>>(
    rt: &H,
) -> Option<(TcpListener, SocketAddr)> {
    let listener = TcpListener::bind(rt, "127.0.0.1:0").ok()?;
    let address = listener.local_addr().ok()?;
    Some((listener, address))
}

/// Whether the clients of a server see what they are to see, and it ends as it is to end.
pub fn is_met<
    H: Net<Listener = TcpListener, Stream = TcpStream> + Threads + Wait + Clock + Sync + Wires,
>(rt: &H, case: Case<'_>) -> bool
where
    H: AllocGlobal + RandomSource,
{
    let outside = Outside::new();
    if case.plan.is_told {
        outside.stop.stop();
    }
    let (Some(listening), Ok(seed)) = (listen(rt), RandomState::new(rt)) else {
        return false;
    };
    let (ended, seen) = run_both(rt, listening, seed, case, &outside);
    seen && case.expect.fits(ended)
}
