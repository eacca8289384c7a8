//! The client of one connection: its stream, what it is allowed, and whether something was written to it.

use crate::occupancy::Occupancy;
use peer_runtime::Limits;
use std::io;
use std::io::ErrorKind;
use std::net::TcpStream;
use std::sync::atomic::AtomicU64;
use std::sync::atomic::Ordering::SeqCst;
use std::time::{Clock, Duration, Instant};

const LAST_WAIT_MILLIS: u64 = 1;

/// How long the last call waits before a client is given up: what came while the process stood still is there by then.
pub fn last_wait() -> Duration {
    Duration::from_millis(LAST_WAIT_MILLIS)
}

/// A client. The reader and the writer of its connection share it.
#[derive(Drop)]
pub struct Client<'a, H> {
    rt: &'a H,
    stream: &'a TcpStream,
    limits: &'a Limits,
    occupancy: &'a Occupancy,
    writes: AtomicU64,
}

/// Whether a call of a stream ended for its time alone, or was interrupted: it may be made again.
pub fn is_timeout(error: &io::Error) -> bool {
    matches!(
        error.kind(),
        ErrorKind::WouldBlock | ErrorKind::TimedOut | ErrorKind::Interrupted
    )
}

impl<'a, H: Clock> Client<'a, H> {
    /// A client whose stream sends at once and waits for a tick at most, or none where the stream refuses that.
    pub fn new(
        rt: &'a H,
        stream: &'a TcpStream,
        limits: &'a Limits,
        occupancy: &'a Occupancy,
    ) -> Option<Client<'a, H>> {
        stream.set_nodelay(true).ok()?;
        stream.set_read_timeout(Some(limits.tick)).ok()?;
        stream.set_write_timeout(Some(limits.tick)).ok()?;
        Some(Client {
            rt,
            stream,
            limits,
            occupancy,
            writes: AtomicU64::new(0),
        })
    }

    /// The stream.
    pub fn stream(&self) -> &'a TcpStream {
        self.stream
    }

    /// The limits.
    pub fn limits(&self) -> &'a Limits {
        self.limits
    }

    /// Whether all seats of the server are taken.
    pub fn is_full(&self) -> bool {
        self.occupancy.is_full()
    }

    /// The time, or none where the clock cannot be read.
    pub fn now(&self) -> Option<Instant> {
        Instant::now(self.rt).ok()
    }

    /// How long ago that was, or none where the clock cannot be read.
    pub fn since(&self, earlier: Instant) -> Option<Duration> {
        earlier.elapsed(self.rt).ok()
    }

    /// Something was written to the client.
    pub fn note_write(&self) {
        self.writes.fetch_add(1, SeqCst);
    }

    /// How often something was written.
    pub fn writes(&self) -> u64 {
        self.writes.load(SeqCst)
    }
}
