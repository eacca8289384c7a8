//! What a client sends, as a reader that gives up a client which is silent or slow.
ghost use Rattle.std.specs.Prelude.{◌≡◌, ◌<◌, ◌≤◌, ◌↔◌, length, None, IfSome, IsTrue};

use crate::client::{Client, is_timeout, last_wait};
use peer_view::{PeerRead, ReadCounts, ReadFailed};
use std::io::Read;
use std::time::{Clock, Instant};

// Bytes came from that time on, and nothing was written since: there were so many writes.
#[derive(Clone, Copy)]
struct Unanswered {
    since: Instant,
    writes: u64,
}

// What is known of the bytes of a client.
#[derive(Drop)]
struct Input<'a, H> {
    client: &'a Client<'a, H>,
    unanswered: Option<Unanswered>,
    // Whether the client was slow when it was looked at last.
    was_slow: bool,
}

impl<'a, H: Clock> Input<'a, H> {
    // Whether the client is to be given up for sending so long without a reply.
    fn is_slow(&self) -> bool {
        match self.unanswered {
            Some(Unanswered { since, writes }) if writes == self.client.writes() => {
                match self.client.since(since) {
                    Some(time) => time >= self.client.limits().request_when_full,
                    None => true,
                }
            }
            _ => false,
        }
    }

    // Whether the client is to be given up for sending nothing since then.
    fn is_silent(&self, begun: Instant) -> bool {
        let limits = self.client.limits();
        match self.client.since(begun) {
            Some(time) => {
                time >= limits.silence || self.client.is_full() && time >= limits.silence_when_full
            }
            None => true,
        }
    }

    // Bytes came.
    fn note_bytes(&mut self) {
        let writes = self.client.writes();
        match self.unanswered {
            Some(unanswered) if unanswered.writes == writes => {}
            _ => {
                self.unanswered = match self.client.now() {
                    Some(since) => Some(Unanswered { since, writes }),
                    None => None,
                };
            }
        }
    }

    // Whether the client is slow, and was when it was looked at last: that look has found what came while the process stood still.
    fn stays_slow(&mut self) -> bool {
        let was_slow = self.was_slow;
        self.was_slow = self.client.is_full() && self.is_slow();
        was_slow && self.was_slow
    }

    // The bytes that have come by now from a client that is silent, or none.
    fn receive_last(&mut self, room: &mut [u8]) -> Option<usize>
        ensures { IfSome result (λ n. n ≤ length room.new) }
    {
        let mut stream = self.client.stream();
        stream.set_read_timeout(Some(last_wait())).ok()?;
        let n = stream.read(room).ok()?;
        stream
            .set_read_timeout(Some(self.client.limits().tick))
            .ok()?;
        self.note_bytes();
        Some(n)
    }

    // The bytes that come next, or none where the stream failed or the client was given up.
    fn receive(&mut self, room: &mut [u8]) -> Option<usize>
        ensures { IfSome result (λ n. n ≤ length room.new) }
    {
        let begun = self.client.now()?;
        let mut stream = self.client.stream();
        for _ in 0..u64::MAX {
            if self.stays_slow() {
                return None;
            }
            if self.is_silent(begun) {
                return self.receive_last(room);
            }
            match stream.read(room) {
                Ok(n) => {
                    self.note_bytes();
                    return Some(n);
                }
                Err(error) if is_timeout(&error) => {}
                Err(_) => return None,
            }
        }
        None
    }
}

/// A reader of what a client sends.
#[derive(Drop)]
pub struct ClientReader<'a, H> {
    input: Input<'a, H>,
    // How often something had been written to the client when the last read came back.
    writes: u64,
    counts: ReadCounts,
}

impl<'a, H: Clock> ClientReader<'a, H> {
    /// A reader that was not called yet.
    pub fn new(client: &'a Client<'a, H>) -> ClientReader<'a, H>
        ensures calls { result.counts.calls ≡ 0 }
        ensures ends { result.counts.ends ≡ 0 }
        ensures failures { result.counts.failures ≡ 0 }
    {
        ClientReader {
            input: Input {
                client,
                unanswered: None,
                was_slow: false,
            },
            writes: 0,
            counts: ReadCounts::none(),
        }
    }

    /// Whether the client told its end.
    pub fn has_ended(&self) -> bool
        ensures { IsTrue result ↔ (0 < self.now.counts.ends) }
    {
        self.counts.ends > 0
    }

    /// Whether something was written to the client since the last read came back.
    pub fn was_answered_since(&self) -> bool {
        self.input.client.writes() > self.writes
    }
}

impl<'a, H: Clock> PeerRead for ClientReader<'a, H> {
    ghost given = { λ r. None };

    ghost calls = { λ r. r.counts.calls };

    ghost ends = { λ r. r.counts.ends };

    ghost failures = { λ r. r.counts.failures };

    /// Waits for bytes as long as the client may be silent.
    fn read(&mut self, room: &mut [u8]) -> Result<usize, ReadFailed> {
        let given = self.input.receive(room);
        self.writes = self.input.client.writes();
        self.counts.count(given, room)
    }
}
