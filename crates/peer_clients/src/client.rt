//! One client of a loop: its stream, its connection, and when it last did something.
//!
//! It stands on the connection as a state (`Exchange`), on the seat of its loop, and on what the system reports of the stream.
//! It promises that the seat stays one of the pool, with its parts, and that the connection stays one of the pool's source.
ghost use Rattle.std.specs.Prelude.{◌≡◌, ◌↔◌, IsTrue, Some};
ghost use Rattle.peer_site.specs.Activities.{IsOverdue};
ghost use Rattle.peer_clients.specs.Parts.{KeepsParts};
ghost use Rattle.peer_clients.specs.Standings.{standing_of};

mod streaming;

use crate::client_state::ClientState;
use crate::facts::Facts;
use crate::limits::{ASKS_OF_ROUND, MAX_UNCOUNTED, ROUNDS_OF_TURN};
use crate::seat::{LoopSeat, Progress};
use crate::skip::skip;
use mio::event::Event;
use mio::net::TcpStream;
use mio::{Interest, Registry, Token};
use peer_exchange::{End, Exchange};
use peer_runtime::{Limits, Readiness};
use peer_site::{Activity, Occupancy, Standing};
use peer_source::Source;
use peer_stats::{Closing, GroupTimes};
use std::io;
use std::marker::PhantomData;
use std::net::Shutdown;
use std::sync::Wait;
use std::sync::ledger::Ledger;
use std::time::Duration;

// The wait of a client for the value of its first ticket: for the fill of which flight, of which group, and since when.
#[derive(Clone, Copy)]
struct ValueWait {
    flight: u64,
    group: usize,
    since: Duration,
}

/// A stream and its connection, and when something came or went last.
#[derive(Drop)]
pub struct Client<'a, S: Source, F: Facts<S>> {
    stream: TcpStream,
    exchange: Exchange<'a, S>,
    of: PhantomData<F>,
    readiness: Readiness,
    // The client told its end.
    ended: bool,
    // A call of the stream failed.
    failed: bool,
    // The replies are sent, and what still comes is discarded.
    lingers: bool,
    skipped: usize,
    // What is counted of what it holds.
    counted: usize,
    /// Whether it is on the list of those that are to have a turn.
    pub is_ready: bool,
    activity: Activity,
    wait: Option<ValueWait>,
    ghost source: { F.source ≡ Some exchange.names },
}

impl<'a, S: Source, F: Facts<S>> Client<'a, S, F> {
    ghost use Rattle.std.specs.Prelude.{◌≡◌, Some};
    ghost use Rattle.peer_clients.specs.Parts.{KeepsParts};

    /// A client of whom nothing was reported.
    pub fn new(stream: TcpStream, exchange: Exchange<'a, S>, now: Duration) -> Client<'a, S, F>
        requires { F.source ≡ Some exchange.names }
    {
        Client {
            stream,
            exchange,
            of: PhantomData,
            readiness: Readiness::unknown(),
            ended: false,
            failed: false,
            lingers: false,
            skipped: 0,
            counted: 0,
            is_ready: false,
            activity: Activity::new(now),
            wait: None,
        }
    }

    /// Has events of the stream reported under the token.
    pub fn register(&mut self, registry: &Registry, token: Token) -> io::Result<()> {
        let interest = Interest::READABLE | Interest::WRITABLE;
        registry.register(&mut self.stream, token, interest)
    }

    /// Notes what was reported. A client that has reset its connection is to have no reply, whatever it waits for.
    pub fn note(&mut self, event: &Event) {
        self.readiness.note(event);
        self.failed |= event.is_error();
    }

    /// The number of the flight whose fill it waits for.
    pub fn awaits(&self) -> Option<u64> {
        self.exchange.awaits()
    }

    // Closes what is over. Where the client has not told its end, the close lingers.
    fn close(&mut self, now: Duration) -> ClientState {
        if self.ended || self.stream.shutdown(Shutdown::Write).is_err() {
            return ClientState::Gone;
        }
        self.lingers = true;
        self.activity.note_close(now);
        skip(&mut self.stream, &mut self.skipped)
    }

    // Whether it holds nothing: no reply is to be sent, and no ticket waits.
    fn holds_nothing(&self) -> bool {
        let rest = self.exchange.rest();
        !rest.output && !rest.fill
    }

    // Asks and answers, as far as that goes in one round. Where all clients together hold too much, it asks only where it
    // holds nothing itself, and for one value.
    fn serve<L: Ledger, H: Wait>(
        &mut self,
        rt: &H,
        seat: &mut LoopSeat<'a, S, L, F>,
        occupancy: &Occupancy,
    ) -> Progress
        ensures pool { seat.new.pool.now ≡ seat.old.pool.now }
        ensures parts { KeepsParts seat.old.seats seat.new.seats }
    {
        for _ in 0..ASKS_OF_ROUND {
            if occupancy.holds_too_much() {
                if !self.holds_nothing() {
                    return seat.answer(&mut self.exchange);
                }
                self.exchange.narrow();
            }
            let progress = seat.serve(rt, &mut self.exchange);
            if progress != Progress::More {
                return progress;
            }
        }
        Progress::More
    }

    // What it waits for behind a round, none where more can be done at once: also since a fill came behind the look at it, or
    // since the replies that had to be sent first were.
    fn state(&self, progress: Progress) -> Option<ClientState> {
        let awaits = self.awaits();
        let came = awaits.is_none() && self.exchange.rest().fill;
        let sent = progress == Progress::Unsent && self.exchange.output().is_empty();
        if came || sent || progress == Progress::More || self.reads() || self.writes() {
            return None;
        }
        match awaits {
            _ if progress == Progress::NoRoom => Some(ClientState::NoRoom(awaits)),
            Some(number) => Some(ClientState::Awaits(number)),
            None => Some(ClientState::Idle),
        }
    }

    // Reads once, and answers and writes some times at most. What it waits for, none where more can be done at once.
    fn round<L: Ledger, H: Wait>(
        &mut self,
        rt: &H,
        seat: &mut LoopSeat<'a, S, L, F>,
        now: Duration,
        occupancy: &Occupancy,
    ) -> Option<ClientState>
        ensures pool { seat.new.pool.now ≡ seat.old.pool.now }
        ensures parts { KeepsParts seat.old.seats seat.new.seats }
    {
        let came = self.receive(seat.buffer.as_mut_slice(), now);
        seat.note_received(came);
        if self.failed {
            return Some(ClientState::Gone);
        }
        let progress = self.serve(rt, seat, occupancy);
        seat.note_sent(self.send(now));
        if self.failed {
            return Some(ClientState::Gone);
        }
        if self.exchange.is_over() {
            return Some(self.close(now));
        }
        self.state(progress)
    }

    /// Counts what it holds among what all clients hold, where that is more than each may.
    pub fn count_held(&mut self, occupancy: &Occupancy) {
        let held = self.exchange.held();
        let counted = if held > MAX_UNCOUNTED { held } else { 0 };
        if counted != self.counted {
            occupancy.recount(self.counted, counted);
            self.counted = counted;
        }
    }

    // The wait that begins now, where the first ticket waits for a fill.
    fn wait_from(&self, now: Duration) -> Option<ValueWait> {
        let flight = self.awaits()?;
        let group = self.exchange.first_group()?.number;
        Some(ValueWait {
            flight,
            group,
            since: now,
        })
    }

    /// Counts its wait for a value where it is over behind a turn, and notes where another one begins.
    pub fn count_wait(&mut self, now: Duration, waits: &GroupTimes) {
        let begins = self.wait_from(now);
        if let (Some(wait), Some(next)) = (self.wait, begins) {
            if wait.flight == next.flight {
                return;
            }
        }
        if let Some(wait) = self.wait {
            waits.count(wait.group, now.saturating_sub(wait.since));
        }
        self.wait = begins;
    }

    /// What it holds is let go.
    pub fn let_go(&mut self, occupancy: &Occupancy) {
        occupancy.recount(self.counted, 0);
        self.counted = 0;
    }

    /// Why it is let go at the end of a turn, where the server ends or does not.
    pub fn closing(&self, stops: bool) -> Closing {
        match self.exchange.ended() {
            Some(End::Memory) => Closing::Memory,
            _ if self.failed => Closing::Client,
            _ if stops => Closing::End,
            _ if self.lingers => Closing::Reply,
            _ => Closing::Client,
        }
    }

    /// Why it is let go where it is overdue. `full` says that no more connections can be had.
    pub fn overdue_closing(
        &self,
        limits: &Limits,
        full: bool,
        now: Duration,
        stops: bool,
    ) -> Closing {
        match self.standing() {
            Standing::Lingers => self.closing(stops),
            Standing::HasOutput => Closing::Slow,
            _ if full && !self.is_overdue(limits, false, now) => Closing::Crowded,
            _ => Closing::Silent,
        }
    }

    /// Reads nothing more of it, as if it had told its end. In its next turns it is answered, and closed.
    pub fn stop(&mut self) {
        self.exchange.end();
    }

    /// Reads, answers and writes, as far as that goes in one turn.
    pub fn turn<L: Ledger, H: Wait>(
        &mut self,
        rt: &H,
        seat: &mut LoopSeat<'a, S, L, F>,
        now: Duration,
        occupancy: &Occupancy,
    ) -> ClientState
        ensures pool { seat.new.pool.now ≡ seat.old.pool.now }
        ensures parts { KeepsParts seat.old.seats seat.new.seats }
    {
        if self.lingers {
            return skip(&mut self.stream, &mut self.skipped);
        }
        self.exchange.note_turn(now);
        for _ in 0..ROUNDS_OF_TURN {
            if let Some(state) = self.round(rt, seat, now, occupancy) {
                return state;
            }
        }
        ClientState::Busy
    }

    /// Has it write once more, where output waits: the system reports room only once much of it is free. Whether there is output.
    pub fn retry_write(&mut self) -> bool {
        let waits = !self.lingers && !self.exchange.output().is_empty();
        self.readiness.writable |= waits;
        waits
    }

    // What it does at the moment.
    fn standing(&self) -> Standing
        ensures { result ≡ standing_of self.now.lingers self.now.is_ready self.now.exchange.state }
    {
        let rest = self.exchange.rest();
        if self.lingers {
            Standing::Lingers
        } else if rest.output {
            Standing::HasOutput
        } else if rest.fill || rest.job {
            Standing::Waits
        } else if self.is_ready {
            Standing::IsReady
        } else {
            Standing::Idle
        }
    }

    /// Whether it is to be let go. `full` says that no more connections can be had. What was just reported of it, and the value or
    /// the room that came for it, are for its next turn.
    pub fn is_overdue(&self, limits: &Limits, full: bool, now: Duration) -> bool
        ensures { IsTrue result ↔ IsOverdue limits.now full now self.now.activity
            (standing_of self.now.lingers self.now.is_ready self.now.exchange.state) }
    {
        self.activity.is_overdue(limits, full, now, self.standing())
    }
}
