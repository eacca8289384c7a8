//! A stream that notes what it carries, which only contracts see.
ghost use Rattle.std.specs.Prelude.{◌≡◌, ◌<◌, ◌++◌, ◌||◌, ◌==◌, [], false, length, take, IfOk, OnErr};
ghost use Rattle.std.specs.Io.{ReadsAtMost, WritesAtMost};
ghost use Rattle.peer_runtime.specs.Wires.{IsBlank, IsSameCame, IsSameSent};

use mio::net::TcpStream;
use peer_view::History;
use std::io;
use std::io::{Read, Write};
use std::net::SocketAddr;

/// A stream, with what was sent and what came in its present use, and whether its end was told.
#[derive(Drop)]
pub struct Wire {
    stream: TcpStream,
    sent: History,
    came: History,
    ended: bool,
}

impl Wire {
    /// A stream that was not used yet.
    pub fn new(stream: TcpStream) -> Wire
        ensures { IsBlank result }
    {
        Wire {
            stream,
            sent: History::none(),
            came: History::none(),
            ended: false,
        }
    }

    /// Another use begins.
    pub fn begin(&mut self)
        ensures { IsBlank self.new }
    {
        self.sent = History::none();
        self.came = History::none();
        self.ended = false;
    }

    /// These bytes were sent.
    pub fn note_sent(&mut self, bytes: &[u8])
        ensures sent { self.new.sent.bytes ≡ self.old.sent.bytes ++ bytes.now }
        ensures came { IsSameCame self.old self.new }
    {
        self.sent = self.sent.and(bytes);
    }

    /// These bytes came, or the end where there is none.
    pub fn note_came(&mut self, bytes: &[u8])
        ensures came { self.new.came.bytes ≡ self.old.came.bytes ++ bytes.now }
        ensures ended { self.new.ended ≡ (self.old.ended || length bytes.now == 0) }
        ensures sent { IsSameSent self.old self.new }
    {
        self.came = self.came.and(bytes);
        self.ended = self.ended || bytes.is_empty();
    }

    /// Sends bytes off the front, and says how many.
    pub fn write(&mut self, bytes: &[u8]) -> io::Result<usize>
        ensures bound { WritesAtMost result bytes.now }
        ensures sent { IfOk result (λ n. self.new.sent.bytes ≡ self.old.sent.bytes ++ take n bytes.now) }
        ensures err { OnErr result (IsSameSent self.old self.new) }
        ensures came { IsSameCame self.old self.new }
    {
        match self.stream.write(bytes) {
            Ok(n) => {
                self.note_sent(&bytes[..n]);
                Ok(n)
            }
            Err(error) => Err(error),
        }
    }

    /// Gives bytes that came into the front of the room, and says how many. None is the end.
    pub fn read(&mut self, room: &mut [u8]) -> io::Result<usize>
        requires { 0 < length room.old }
        ensures bound { ReadsAtMost result room.new }
        ensures came { IfOk result (λ n. self.new.came.bytes ≡ self.old.came.bytes ++ take n room.new) }
        ensures ended { IfOk result (λ n. self.new.ended ≡ (self.old.ended || n == 0)) }
        ensures err { OnErr result (IsSameCame self.old self.new) }
        ensures sent { IsSameSent self.old self.new }
    {
        match self.stream.read(room) {
            Ok(n) => {
                self.note_came(&room[..n]);
                Ok(n)
            }
            Err(error) => Err(error),
        }
    }

    /// Whether bytes have come that were not read, or the end, or an error.
    pub fn peek(&self, room: &mut [u8]) -> io::Result<usize> {
        self.stream.peek(room)
    }

    /// Why it could not be connected, if it is told.
    pub fn take_error(&self) -> io::Result<Option<io::Error>> {
        self.stream.take_error()
    }

    /// The address that it is connected to.
    pub fn peer_addr(&self) -> io::Result<SocketAddr> {
        self.stream.peer_addr()
    }

    /// The address that it is connected from.
    pub fn local_addr(&self) -> io::Result<SocketAddr> {
        self.stream.local_addr()
    }

    /// Has what is written go at once.
    pub fn set_nodelay(&self) -> io::Result<()> {
        self.stream.set_nodelay(true)
    }
}
