//! A connection to an origin, and the value that is under way on it.
//!
//! It promises that a turn leaves a value on its connection, or gives it back with its own job, that only a value of the endpoint
//! with whose number the connection began is asked for on it, where no other is under way and the last use is over: one whole
//! request was sent in it, and one whole reply came. What a connection carried in its present use is what was sent and came for
//! that value.
ghost use Rattle.std.specs.Prelude.{◌≡◌, ◌↔◌, IfSome, IsSome, IsSomeAnd, IsTrue, Some, None, false, true};
ghost use Rattle.std.proofs.Props.{props};
ghost use Rattle.peer_runtime.specs.Wires.{Carried};
ghost use Rattle.peer_origin.specs.Wires.{IsOver};
ghost use Rattle.peer_fetch.specs.Transfers.{IsOn};
ghost use Rattle.peer_fetch.specs.Turns.{GivesOn, IsTurnOf, KeepsWire};
ghost use Rattle.peer_value.specs.UnderWays.{HasSameJob, number_of};
ghost use Rattle.peer_value.specs.Values.{IsToldBy, IsUnused};

use crate::transfer::{Halt, receive, send};
use mio::event::Event;
use mio::net::TcpStream;
use peer_origin::{Failure, FetchFault, Wires, is_to_itself};
use peer_runtime::{Readiness, Wire, would_block};
use peer_source::Source;
use peer_stats::ConnectEnd;
use peer_value::{Answer, Done, UnderWay};
use std::io;
use std::io::ErrorKind;
use std::marker::PhantomData;
use std::net::SocketAddr;
use std::time::Duration;

/// That another request may follow on a connection. Its turn alone says so.
#[derive(Drop)]
pub struct Reusable {
    // No other module makes one.
    private: (),
}

/// The address of a connection, and how many others may be tried for its first value if it is not reached.
#[derive(Clone, Copy)]
pub struct Way {
    pub address: SocketAddr,
    pub left: usize,
}

/// How a connection stands after its turn.
#[derive(Drop)]
pub enum Turn<'a, S: Source> {
    /// It waits for an event.
    Waits,
    /// It has had its turn, and has work left.
    Busy,
    /// No value is under way, and it cannot be used again.
    Gone,
    /// The value is done. Another one may be asked for on the connection where that is said.
    Done(Done<'a, S>, Option<Reusable>),
    /// There is no connection to the address, for this reason.
    Unconnected(UnderWay<'a, S>, ConnectEnd),
    /// The connection ended, or failed, before the value was there.
    Cut(UnderWay<'a, S>, Failure),
}

/// A connection.
#[derive(Drop)]
pub struct Link<'a, S: Source, H: Wires> {
    wire: Wire,
    under: Option<UnderWay<'a, S>>,
    // When the address is given up. None once it is connected.
    connect_due: Option<Duration>,
    readiness: Readiness,
    /// The number of the endpoint that it is to.
    pub number: usize,
    /// Where it leads to.
    pub way: Way,
    /// Whether it was used before.
    pub was_kept: bool,
    /// Whether it is on the list of those that are to have a turn.
    pub is_ready: bool,
    // Whether its last use is over: another request may follow.
    is_over: bool,
    of: PhantomData<H>,
    ghost own: { IfSome under (λ u. number_of u ≡ number) } by { Prim.hlevel props },
    ghost carried: { Carried H.carried wire },
    ghost tied: { IfSome under (λ u. IsOn wire u) } by { Prim.hlevel props },
    ghost over: { IsTrue is_over → IsOver wire } by { Prim.hlevel props },
}

// How far a stream is that began to connect.
#[derive(Clone, Copy)]
enum Connecting {
    Connected,
    Waits,
    Failed(ConnectEnd),
}

// That another request may follow, where it may.
fn reusable_if(may_follow: bool) -> Option<Reusable>
    ensures { IsSome result → IsTrue may_follow }
{
    if may_follow {
        Some(Reusable { private: () })
    } else {
        None
    }
}

// Why a value that is late was not had. Where the origin answered another status than 200, it is told by that.
fn late_fault<S: Source>(under: &UnderWay<'_, S>) -> FetchFault
    ensures { IsToldBy (Some under.now.fetching) result }
{
    match under.cut() {
        Failure::Fetch(FetchFault::Status(status)) => FetchFault::Status(status),
        _ => FetchFault::Late,
    }
}

// Why no connection is made, if the system has told an error of its stream.
fn end_of(told: io::Result<Option<io::Error>>) -> Option<ConnectEnd> {
    match told {
        Ok(None) => None,
        Ok(Some(error)) => match error.kind() {
            ErrorKind::ConnectionRefused => Some(ConnectEnd::Refused),
            ErrorKind::TimedOut => Some(ConnectEnd::Late),
            _ => Some(ConnectEnd::Failed),
        },
        Err(_) => Some(ConnectEnd::Failed),
    }
}

// How far a stream is that began to connect.
fn progress_of<H: Wires>(rt: &H, wire: &mut Wire) -> Connecting
    requires { Carried H.carried wire.old }
    ensures wire { KeepsWire result wire.old wire.new }
    ensures carried { Carried H.carried wire.new }
{
    if let Some(end) = end_of(wire.take_error()) {
        return Connecting::Failed(end);
    }
    match wire.peer_addr() {
        Ok(peer) if is_to_itself(wire.local_addr(), peer) => {
            // So that its close gives the port back at once.
            let _ = rt.write(wire, b"x");
            Connecting::Failed(ConnectEnd::Failed)
        }
        Ok(_) => Connecting::Connected,
        Err(error) if error.kind() == ErrorKind::NotConnected => Connecting::Waits,
        Err(_) => Connecting::Failed(ConnectEnd::Failed),
    }
}

impl<'a, S: Source, H: Wires> Link<'a, S, H> {
    /// A stream that begins to connect to the endpoint of a value, for that value. It is given up at `due`.
    pub fn new(
        rt: &H,
        stream: TcpStream,
        under: UnderWay<'a, S>,
        way: Way,
        due: Duration,
    ) -> Link<'a, S, H>
        requires { IsUnused under.fetching }
        ensures { result.under ≡ Some under.entry }
    {
        let number = under.number();
        Link {
            wire: rt.wire(stream),
            under: Some(under),
            connect_due: Some(due),
            readiness: Readiness::unknown(),
            number,
            way,
            was_kept: false,
            is_ready: false,
            is_over: false,
            of: PhantomData,
        }
    }

    /// Notes what was reported.
    pub fn note(&mut self, event: &Event)
        ensures under { self.new.under ≡ self.old.under }
        ensures number { self.new.number ≡ self.old.number }
    {
        self.readiness.note(event);
    }

    /// Whether no value is under way, and another one may be asked for: nothing came, not even the end.
    pub fn is_idle(&self) -> bool {
        if !self.is_free() || self.readiness.read_closed {
            return false;
        }
        let mut byte = [0u8; 1];
        match self.wire.peek(&mut byte) {
            Ok(_) => false,
            Err(error) => would_block(&error),
        }
    }

    /// Whether no value is under way.
    pub fn is_free(&self) -> bool
        ensures { IsTrue result ↔ (self.now.under ≡ None) }
    {
        self.under.is_none()
    }

    /// Whether no value is under way, and another one may be asked for: its last use is over.
    pub fn may_begin(&self) -> bool
        ensures free { IsTrue result → self.now.under ≡ None }
        ensures over { IsTrue result → self.now.is_over ≡ true }
    {
        self.is_free() && self.is_over
    }

    // Puts the value that is under way, where there is none.
    fn put(&mut self, under: UnderWay<'a, S>)
        requires number { number_of under ≡ self.old.number }
        requires free { self.old.under ≡ None }
        requires on { IsOn self.old.wire under }
        ensures under { self.new.under ≡ Some under.entry }
        ensures number { self.new.number ≡ self.old.number }
    {
        self.under = Some(under);
    }

    /// Asks for another value of its endpoint.
    pub fn begin(&mut self, rt: &H, under: UnderWay<'a, S>)
        requires number { number_of under ≡ self.old.number }
        requires free { self.old.under ≡ None }
        requires over { self.old.is_over ≡ true }
        requires unused { IsUnused under.fetching }
        ensures under { self.new.under ≡ Some under.entry }
        ensures number { self.new.number ≡ self.old.number }
    {
        self.readiness.readable = false;
        self.was_kept = true;
        self.is_over = false;
        rt.begin(&mut self.wire);
        self.put(under);
    }

    /// When its value is given up, or its address.
    pub fn due(&self) -> Option<Duration> {
        let under = self.under.as_ref()?;
        match self.connect_due {
            Some(due) if due < under.due() => Some(due),
            _ => Some(under.due()),
        }
    }

    // Puts the value back that is under way, and notes by now how far it is.
    fn put_back(&mut self, under: UnderWay<'a, S>, now: Duration)
        requires number { number_of under ≡ self.old.number }
        requires free { self.old.under ≡ None }
        requires on { IsOn self.old.wire under }
        ensures under { IsSomeAnd self.new.under (HasSameJob under.entry) }
        ensures number { self.new.number ≡ self.old.number }
    {
        let mut under = under;
        under.note_progress(now);
        self.put(under);
    }

    // Sends and receives for a value. One that is late has what has come by now, and nothing is waited for.
    fn exchange(
        &mut self,
        rt: &H,
        under: UnderWay<'a, S>,
        buffer: &mut [u8],
        now: Duration,
    ) -> Turn<'a, S>
        requires number { number_of under ≡ self.old.number }
        requires free { self.old.under ≡ None }
        requires on { IsOn self.old.wire under }
        ensures value { IsTurnOf under.entry self.new.under result }
        ensures on { GivesOn H.carried result }
        ensures number { self.new.number ≡ self.old.number }
    {
        let mut under = under;
        under.note_connected(now);
        let late = under.due() <= now;
        self.is_over = false;
        // Of what came while the process stood still no event need have told, nor of the end behind it.
        self.readiness.readable |= late;
        self.readiness.read_closed |= late;
        let wire = &mut self.wire;
        let halt = match send(rt, wire, &mut under) {
            Some(halt) => halt,
            None => match receive(rt, wire, &mut under, buffer, &mut self.readiness) {
                Ok(answer) => {
                    let Answer { value, keeps } = answer;
                    self.is_over = keeps && !self.readiness.read_closed;
                    return Turn::Done(under.done(value), reusable_if(self.is_over));
                }
                Err(halt) => halt,
            },
        };
        match halt {
            Halt::Waits | Halt::Busy | Halt::Failed(Failure::Silent) if late => {
                let fault = late_fault(&under);
                Turn::Done(under.done(Err(fault)), None)
            }
            Halt::Failed(failure) => Turn::Cut(under, failure),
            Halt::Waits => {
                self.put_back(under, now);
                Turn::Waits
            }
            Halt::Busy => {
                self.put_back(under, now);
                Turn::Busy
            }
        }
    }

    /// Whether its value is to be given up by now.
    pub fn is_late(&self, now: Duration) -> bool {
        match &self.under {
            Some(under) => under.due() <= now,
            None => false,
        }
    }

    /// Whether it is connected.
    pub fn is_connected(&self) -> bool {
        self.connect_due.is_none()
    }

    // How far the stream is. An address that is not reached by its time has failed.
    fn connect(&mut self, rt: &H, now: Duration) -> Connecting
        requires { self.old.under ≡ None }
        ensures wire { KeepsWire result self.old.wire self.new.wire }
        ensures number { self.new.number ≡ self.old.number }
        ensures under { self.new.under ≡ self.old.under }
    {
        let Some(due) = self.connect_due else {
            return Connecting::Connected;
        };
        self.is_over = false;
        let progress = progress_of(rt, &mut self.wire);
        match progress {
            Connecting::Connected => {
                self.connect_due = None;
                let _ = self.wire.set_nodelay();
            }
            Connecting::Waits if now >= due => return Connecting::Failed(ConnectEnd::Late),
            _ => {}
        }
        progress
    }

    /// Goes on with the value that is under way.
    pub fn turn(&mut self, rt: &H, buffer: &mut [u8], now: Duration) -> Turn<'a, S>
        ensures value { IfSome self.old.under (λ u. IsTurnOf u self.new.under result) }
        ensures on { GivesOn H.carried result }
        ensures number { self.new.number ≡ self.old.number }
    {
        self.is_ready = false;
        let Some(under) = self.under.take() else {
            return if self.is_idle() {
                Turn::Waits
            } else {
                Turn::Gone
            };
        };
        let late = under.due() <= now;
        match self.connect(rt, now) {
            Connecting::Connected => self.exchange(rt, under, buffer, now),
            Connecting::Waits | Connecting::Failed(_) if late => {
                Turn::Done(under.done(Err(FetchFault::Unreached)), None)
            }
            Connecting::Waits => {
                self.put(under);
                Turn::Waits
            }
            Connecting::Failed(end) => Turn::Unconnected(under, end),
        }
    }
}
