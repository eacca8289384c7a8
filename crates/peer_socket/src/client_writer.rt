//! What is written to a client, as a writer that gives up a client which takes nothing.
ghost use Rattle.std.specs.Prelude.{◌≡◌, ◌<◌, ◌≤◌, length, None, IfSome};

use crate::client::{Client, is_timeout, last_wait};
use peer_view::{PeerWrite, WriteFailed};
use std::io::Write;
use std::net::Shutdown;
use std::time::{Clock, Instant};

/// A writer to a client.
#[derive(Drop)]
pub struct ClientWriter<'a, H> {
    client: &'a Client<'a, H>,
    failures: u64,
}

// Whether the client is to be given up for taking nothing since then.
fn is_stuck<H: Clock>(client: &Client<'_, H>, begun: Instant) -> bool {
    match client.since(begun) {
        Some(time) => time >= client.limits().unread,
        None => true,
    }
}

// Writes what a client takes by now that took nothing for its time, or none.
fn send_last<H: Clock>(client: &Client<'_, H>, bytes: &[u8]) -> Option<usize>
    ensures bound { IfSome result (λ n. n ≤ length bytes.now) }
    ensures some { IfSome result (λ n. 0 < length bytes.now → 0 < n) }
{
    let mut stream = client.stream();
    stream.set_write_timeout(Some(last_wait())).ok()?;
    let n = stream.write(bytes).ok()?;
    stream.set_write_timeout(Some(client.limits().tick)).ok()?;
    if n > 0 || bytes.is_empty() {
        Some(n)
    } else {
        None
    }
}

// Writes what the client takes, or none where the stream failed or the client was given up.
fn send<H: Clock>(client: &Client<'_, H>, bytes: &[u8]) -> Option<usize>
    ensures bound { IfSome result (λ n. n ≤ length bytes.now) }
    ensures some { IfSome result (λ n. 0 < length bytes.now → 0 < n) }
{
    let begun = client.now()?;
    let mut stream = client.stream();
    for _ in 0..u64::MAX {
        if is_stuck(client, begun) {
            return send_last(client, bytes);
        }
        match stream.write(bytes) {
            Ok(n) if n > 0 || bytes.is_empty() => return Some(n),
            Err(error) if is_timeout(&error) => {}
            _ => return None,
        }
    }
    None
}

impl<'a, H: Clock> ClientWriter<'a, H> {
    /// A writer that has not failed yet.
    pub fn new(client: &'a Client<'a, H>) -> ClientWriter<'a, H>
        ensures { result.failures ≡ 0 }
    {
        ClientWriter {
            client,
            failures: 0,
        }
    }
}

impl<'a, H: Clock> PeerWrite for ClientWriter<'a, H> {
    ghost taken = { λ w. None };

    ghost failures = { λ w. w.failures };

    /// Waits for room as long as the client may take nothing. Where it fails it ends the stream, so that a read which
    /// waits for the client returns.
    fn write(&mut self, bytes: &[u8]) -> Result<usize, WriteFailed> {
        match send(self.client, bytes) {
            Some(n) => {
                self.client.note_write();
                Ok(n)
            }
            None => {
                let _ = self.client.stream().shutdown(Shutdown::Both);
                self.failures += 1;
                Err(WriteFailed)
            }
        }
    }
}
