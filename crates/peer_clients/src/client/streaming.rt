//! What a client sends and takes: its stream is read and written as far as it goes without waiting.
//!
//! It stands on what the system reports of the stream. It promises that the connection is handed no bytes behind the client's
//! end, and that no more is taken off its output than was lent to the stream.
ghost use Rattle.std.specs.Prelude.{◌≡◌, ◌≤◌, ◌+◌, true, length, IfOk, IsTrue};
ghost use Rattle.peer_exchange.specs.ExchangeStates.{lent, lent_behind, takes_bytes};

use super::Client;
use crate::facts::Facts;
use crate::limits::ROUNDS_OF_TURN;
use mio::net::TcpStream;
use peer_runtime::{was_interrupted, would_block};
use peer_source::Source;
use std::cmp::min;
use std::io;
use std::io::{IoSlice, Read, Write};
use std::time::Duration;

impl<'a, S: Source, F: Facts<S>> Client<'a, S, F> {
    /// Whether bytes are read.
    pub(super) fn reads(&self) -> bool
        ensures { IsTrue result → takes_bytes self.now.exchange.state ≡ true }
    {
        self.readiness.readable && self.exchange.takes_bytes() && self.exchange.room() > 0
    }

    /// Whether bytes are written: those that are to be sent, where the stream is known to take some.
    pub(super) fn writes(&self) -> bool {
        self.readiness.writable && !self.failed && !self.exchange.output().is_empty()
    }

    /// Reads once, where bytes are read. How many came.
    pub(super) fn receive(&mut self, buffer: &mut [u8], now: Duration) -> usize {
        let room = min(self.exchange.room(), buffer.len());
        if !self.reads() {
            return 0;
        }
        match self.stream.read(&mut buffer[..room]) {
            Ok(0) => {
                self.readiness.readable = false;
                self.ended = true;
                self.exchange.end();
            }
            Ok(n) => {
                // Where memory is refused, the connection is over.
                let _ = self.exchange.receive(&buffer[..n]);
                self.activity.note_came(now);
                // Less than there was room for is all that has come.
                self.readiness.readable = n == room || self.readiness.read_closed;
                return n;
            }
            Err(error) if would_block(&error) => self.readiness.readable = false,
            Err(error) if was_interrupted(&error) => {}
            Err(_) => self.failed = true,
        }
        0
    }

    // Writes the output, and what lies behind it, by one call. How many bytes the stream took.
    fn write(&self) -> io::Result<usize>
        ensures { IfOk result (λ n. n ≤ length (lent self.now.exchange.state) + length (lent_behind self.now.exchange.state)) }
    {
        let (output, behind) = (self.exchange.output(), self.exchange.output_behind());
        if behind.is_empty() {
            (&self.stream).write(output)
        } else {
            // Not that of `Write`, which makes a call for each.
            TcpStream::write_vectored(&self.stream, &[IoSlice::new(output), IoSlice::new(behind)])
        }
    }

    /// Writes until all is sent or the stream takes no more, some times at most. How many bytes the stream took.
    pub(super) fn send(&mut self, now: Duration) -> usize {
        let mut taken = 0usize;
        for _ in 0..ROUNDS_OF_TURN {
            if !self.writes() {
                return taken;
            }
            match self.write() {
                Ok(n) => {
                    self.exchange.sent(n);
                    taken = taken.saturating_add(n);
                    self.activity.note_taken(now);
                }
                Err(error) if would_block(&error) => {
                    self.readiness.writable = false;
                    self.activity.note_refused(now);
                }
                Err(error) if was_interrupted(&error) => {}
                Err(_) => self.failed = true,
            }
        }
        taken
    }
}
