//! The server of the page: one thread, and few clients at a time, each for a few seconds.

use crate::client::StatsClient;
use crate::counters::Counters;
use crate::end::StatsEnd;
use crate::facts::ServerFacts;
use crate::process::read_process;
use crate::service::StatsService;
use mio::net::{TcpListener, TcpStream};
use mio::{Events, Interest, Poll, Token};
use peer_runtime::{Network, keys_of};
use slab::Slab;
use std::alloc::Global;
use std::fs::Files;
use std::hash::RandomState;
use std::io::ErrorKind;
use std::net::Net;
use std::time::{Duration, Instant};
use std::{net, thread};

// The token of the listener.
const LISTENER: Token = Token(usize::MAX - 1);

// How many clients there are at a time. Others wait in the backlog until one is done or overdue.
const MAX_CLIENTS: usize = 64;

// How many events one wait reports.
const MAX_EVENTS: usize = 64;

// How often the server looks at the loops, and for clients that are overdue.
const TICK_SECONDS: u64 = 1;

// The pause behind a wait for events that failed.
const PAUSE_MILLIS: u64 = 100;

// What a server of the page waits by.
#[derive(Drop)]
struct Waits {
    poll: Poll,
    events: Events,
}

/// A server of the page.
#[derive(Drop)]
pub struct StatsServer {
    alloc: Global,
    listener: TcpListener,
    waits: Waits,
    seed: RandomState,
}

// The server while it runs.
#[derive(Drop)]
struct Running<'a> {
    alloc: Global,
    listener: TcpListener,
    seed: RandomState,
    clients: Slab<StatsClient>,
    service: StatsService<'a>,
    // When it last looked at the loops.
    looked: Duration,
    // An accept failed, or a client was refused: more may wait, of which no event tells.
    failed: bool,
}

/// A server of the page that listens, and how to end it. None where memory or the system refuses it.
pub fn open_stats<H: Net>(
    rt: &H,
    alloc: Global,
    listener: net::TcpListener,
    seed: RandomState,
) -> Option<(StatsServer, StatsEnd)> {
    let poll = Poll::new(rt).ok()?;
    let events = Events::with_capacity(alloc, MAX_EVENTS).ok()?;
    listener.set_nonblocking(true).ok()?;
    let mut listener = TcpListener::from_std(listener);
    poll.registry()
        .register(&mut listener, LISTENER, Interest::READABLE)
        .ok()?;
    let end = StatsEnd::new(&poll)?;
    let server = StatsServer {
        alloc,
        listener,
        waits: Waits { poll, events },
        seed,
    };
    Some((server, end))
}

impl<'a> Running<'a> {
    // Adds a client, unless memory or the system refuses that.
    fn add(&mut self, poll: &Poll, stream: TcpStream) {
        if self.clients.reserve(1).is_err() {
            self.failed = true;
            drop(stream);
            return;
        }
        let token = Token(self.clients.vacant_key());
        let mut client = StatsClient::new(self.alloc, self.seed, stream, self.service.uptime);
        if client.register(poll.registry(), token).is_ok() {
            drop(self.clients.insert(client));
        } else {
            self.failed = true;
            drop(client);
        }
    }

    // Lets a client go.
    fn remove(&mut self, key: usize) {
        drop(self.clients.try_remove(key));
    }

    // Accepts the clients that wait, as many as there is room for.
    fn accept(&mut self, poll: &Poll) {
        for _ in self.clients.len()..MAX_CLIENTS {
            match self.listener.accept() {
                Ok((stream, _)) => self.add(poll, stream),
                Err(error) => {
                    self.failed = error.kind() != ErrorKind::WouldBlock;
                    return;
                }
            }
        }
    }

    // Gives a client its turn.
    fn turn(&mut self, key: usize) {
        let Some(client) = self.clients.get_mut(key) else {
            return;
        };
        if !client.turn(&mut self.service) {
            self.remove(key);
        }
    }

    // Lets those go that have taken too long.
    fn sweep(&mut self) {
        for key in keys_of(&self.clients) {
            let overdue = match self.clients.get(key) {
                Some(client) => client.is_overdue(self.service.uptime),
                None => false,
            };
            if overdue {
                self.remove(key);
            }
        }
    }

    // Looks at the loops, where a tick is over. What the system told of the process is of the last tick then.
    fn look(&mut self) {
        let now = self.service.uptime;
        if now.saturating_sub(self.looked) < Duration::from_secs(TICK_SECONDS) {
            return;
        }
        self.looked = now;
        let counters = self.service.counters;
        self.service.stands_still = counters.look_at_loops(&mut self.service.looks);
        self.service.process = None;
    }

    // Asks the system for what it tells of the process, where a client may want it and it was not asked in this tick.
    fn ask_system<H: Files + AllocGlobal>(&mut self, rt: &H, waits: &Waits) {
        if self.service.process.is_none() && waits.events.iter().next().is_some() {
            self.service.process = read_process(rt, self.alloc);
        }
    }

    // How long it is until the next tick.
    fn time_to_tick(&self) -> Duration {
        let passed = self.service.uptime.saturating_sub(self.looked);
        Duration::from_secs(TICK_SECONDS).saturating_sub(passed)
    }

    // Waits for events, and serves those whom they concern.
    fn serve_once<H: Network + Files + AllocGlobal>(
        &mut self,
        rt: &H,
        waits: &mut Waits,
        begun: Option<Instant>,
    ) {
        let time = Some(self.time_to_tick());
        if waits.poll.poll(&mut waits.events, time).is_err() {
            thread::sleep(rt, Duration::from_millis(PAUSE_MILLIS));
        }
        if let Some(now) = begun.and_then(|begun| begun.elapsed(rt).ok()) {
            self.service.uptime = now;
        }
        self.look();
        self.ask_system(rt, waits);
        for event in waits.events.iter() {
            self.turn(event.token().0);
        }
        self.sweep();
        self.accept(&waits.poll);
    }
}

impl StatsServer {
    /// Serves what is counted of a server with these facts, until it is ended.
    pub fn run<H: Network + Files + AllocGlobal>(
        self,
        rt: &H,
        counters: &Counters,
        facts: ServerFacts<'_>,
        end: &StatsEnd,
    ) {
        let StatsServer {
            alloc,
            listener,
            mut waits,
            seed,
        } = self;
        let mut running = Running {
            alloc,
            listener,
            seed,
            clients: Slab::new(alloc),
            service: StatsService::new(alloc, counters, facts),
            looked: Duration::ZERO,
            failed: false,
        };
        let begun = Instant::now(rt).ok();
        for _ in rt.forever() {
            if end.is_set() {
                return;
            }
            running.serve_once(rt, &mut waits, begun);
        }
        unreachable!()
    }
}
