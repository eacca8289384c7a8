//! How a connection to an origin begins: a stream begins to connect, and is registered for its events.
//!
//! It stands on the sockets and the readiness of `mio`. It promises nothing that contracts see: a stream may fail to connect
//! later, and then the next address is tried.

use mio::net::TcpStream;
use mio::{Interest, Registry, Token};
use peer_runtime::Network;
use std::net::SocketAddr;
use std::time::{Clock, Duration, Instant};

/// The runtime, where streams are registered for events, and when the thread began.
#[derive(Drop)]
pub struct System<'r, H> {
    pub rt: &'r H,
    pub registry: &'r Registry,
    /// None where the clock could not be read.
    pub begun: Option<Instant>,
}

impl<'r, H: Clock> System<'r, H> {
    /// How long ago the thread began, or none where the clock cannot be read.
    pub fn now(&self) -> Option<Duration> {
        self.begun?.elapsed(self.rt).ok()
    }
}

/// A stream that begins to connect to this address.
pub fn open<H: Network>(
    system: &System<'_, H>,
    address: SocketAddr,
    token: Token,
) -> Option<TcpStream> {
    let mut stream = TcpStream::connect(system.rt, address).ok()?;
    let interest = Interest::READABLE | Interest::WRITABLE;
    let registered = system.registry.register(&mut stream, token, interest);
    if registered.is_err() {
        return None;
    }
    Some(stream)
}
