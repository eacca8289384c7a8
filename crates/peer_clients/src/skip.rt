//! How what comes is discarded behind a closing reply.

use crate::client_state::ClientState;
use crate::limits::ROUNDS_OF_TURN;
use mio::net::TcpStream;
use peer_runtime::{MAX_SKIPPED, was_interrupted, would_block};
use std::io::Read;

/// Reads and discards, as a lingering close does, adds what was read to what was skipped, and says what is waited for.
pub fn skip(stream: &mut TcpStream, skipped: &mut usize) -> ClientState {
    let mut room = [0u8; 4096];
    for _ in 0..ROUNDS_OF_TURN {
        match stream.read(&mut room) {
            Ok(0) => return ClientState::Gone,
            Ok(n) => *skipped = skipped.saturating_add(n),
            Err(error) if would_block(&error) => return ClientState::Idle,
            Err(error) if was_interrupted(&error) => {}
            Err(_) => return ClientState::Gone,
        }
        if *skipped > MAX_SKIPPED {
            return ClientState::Gone;
        }
    }
    ClientState::Busy
}
