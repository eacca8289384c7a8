//! The close of a connection that the client did not end (RFC 9112, section 9.6).

use crate::client::Client;
use peer_runtime::MAX_SKIPPED;
use std::io::{ErrorKind, Read};
use std::net::Shutdown;
use std::time::{Clock, Duration, Instant};

// What is left of the time for reading on.
fn time_left<H: Clock>(client: &Client<'_, H>, begun: Instant) -> Option<Duration> {
    let time = client.since(begun)?;
    client.limits().linger.checked_sub(time)
}

// Reads once and discards, within the time that is left, and says how many bytes came.
fn skip<H: Clock>(client: &Client<'_, H>, begun: Instant, room: &mut [u8]) -> Option<usize> {
    let time = time_left(client, begun)?;
    let mut stream = client.stream();
    stream.set_read_timeout(Some(time)).ok()?;
    match stream.read(room) {
        Ok(n) if n > 0 => Some(n),
        Err(error) if error.kind() == ErrorKind::Interrupted => Some(0),
        _ => None,
    }
}

/// Ends what is written, and reads what still comes, so that the close resets nothing that the client has not read.
pub fn linger<H: Clock>(client: &Client<'_, H>) {
    let Some(begun) = client.now() else {
        return;
    };
    if client.stream().shutdown(Shutdown::Write).is_err() {
        return;
    }
    let mut room = [0u8; 4096];
    let mut left = MAX_SKIPPED;
    for _ in 0..MAX_SKIPPED {
        match skip(client, begun, &mut room) {
            Some(n) if n < left => left -= n,
            _ => return,
        }
    }
}
