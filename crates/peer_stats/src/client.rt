//! One client of the page.

use crate::service::StatsService;
use http_server::{Config, Connection};
use mio::net::TcpStream;
use mio::{Interest, Registry, Token};
use std::alloc::Global;
use std::hash::RandomState;
use std::io;
use std::io::ErrorKind;
use std::time::Duration;

// How often a client is read from or written to in one turn: a head of the longest length and the page take some ten times. One
// that is not done by then is let go.
const MAX_ROUNDS: u32 = 256;

// How long a client may take for its request and its reply, so that with a tick of a second none is there for more than 5 s.
const MAX_AGE_SECONDS: u64 = 4;

// How long the content of a request may be: none is used.
const MAX_CONTENT: usize = 1024;

/// A client.
#[derive(Drop)]
pub struct StatsClient {
    stream: TcpStream,
    connection: Connection,
    came: Duration,
}

impl StatsClient {
    /// A client that came at this time since the start.
    pub fn new(alloc: Global, seed: RandomState, stream: TcpStream, now: Duration) -> StatsClient {
        let config = Config {
            max_body_len: MAX_CONTENT,
            ..Config::default()
        };
        StatsClient {
            stream,
            connection: Connection::new(alloc, seed, config),
            came: now,
        }
    }

    /// Has events of the stream reported under the token.
    pub fn register(&mut self, registry: &Registry, token: Token) -> io::Result<()> {
        registry.register(
            &mut self.stream,
            token,
            Interest::READABLE | Interest::WRITABLE,
        )
    }

    // Reads or writes once. Whether that went well.
    fn step(&mut self) -> io::Result<()> {
        if self.connection.wants_write() {
            match self.connection.write_to(&mut self.stream)? {
                0 => Err(ErrorKind::WriteZero.into()),
                _ => Ok(()),
            }
        } else {
            self.connection.read_from(&mut self.stream)?;
            Ok(())
        }
    }

    /// Reads, answers and writes as far as the stream lets it. Whether it is to stay.
    pub fn turn(&mut self, service: &mut StatsService<'_>) -> bool {
        for _ in 0..MAX_ROUNDS {
            self.connection.advance(service);
            if self.connection.is_done() {
                return false;
            }
            match self.step() {
                Ok(()) => {}
                Err(error) => return matches!(error.kind(), ErrorKind::WouldBlock),
            }
        }
        false
    }

    /// Whether it has taken too long.
    pub fn is_overdue(&self, now: Duration) -> bool {
        now.saturating_sub(self.came) > Duration::from_secs(MAX_AGE_SECONDS)
    }
}
