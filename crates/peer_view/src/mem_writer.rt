//! A writer into memory, which takes the bytes in steps and can be made to fail.
ghost use Rattle.std.specs.Prelude.{◌≡◌, ℕ, ◌+◌, ◌-◌, ◌^◌, ◌<◌, ◌≤◌, [], length, Some, IfOk, IsErr};
ghost use Rattle.std.specs.Io.KnownBytes.{Appends};
ghost use Rattle.peer_view.specs.Moves.{moved, failure_count};
ghost use Rattle.peer_view.specs.Pages.{Page, page_room};

use crate::writer::{PeerWrite, WriteFailed};
use std::alloc::Global;
use std::marker::Model;

/// Takes at most `step` bytes a call and `limit` in all, and keeps them.
#[derive(Drop)]
pub struct MemWriter {
    taken: Vec<u8>,
    step: usize,
    limit: Option<usize>,
    failures: u64,
}

impl Model for MemWriter {
    ghost use Rattle.std.specs.Prelude.{◌<◌};
    ghost use Rattle.peer_view.specs.Pages.{Page};

    ghost Value = { Page };

    ghost view = { λ w. record { taken = w.taken.items; step = w.step; limit = w.limit; failures = w.failures } };

    ghost invariant = { λ w. 0 < w.step };
}

impl MemWriter {
    /// A writer that took nothing yet. Its allocator serves its later growths.
    pub fn new(alloc: Global, step: usize, limit: Option<usize>) -> MemWriter
        requires { 0 < step }
        ensures { result ≡ record { taken = []; step = step; limit = limit; failures = 0 } }
    {
        MemWriter {
            taken: Vec::new(alloc),
            step,
            limit,
            failures: 0,
        }
    }

    /// The bytes taken so far.
    pub fn taken(&self) -> &[u8]
        ensures { result.now ≡ self.now.taken }
    {
        &self.taken
    }
}

// How many of `length` bytes one call takes, where `held` are taken already.
fn count_taken(held: usize, length: usize, step: usize, limit: Option<usize>) -> usize
    ensures { result ≡ page_room held step limit length }
{
    let n = length.min(step);
    match limit {
        None => n,
        Some(limit) => n.min(limit.saturating_sub(held)),
    }
}

impl PeerWrite for MemWriter {
    ghost taken = { λ w. Some w.taken };

    ghost failures = { λ w. w.failures };

    /// Fails where the limit is reached, or where memory for the bytes was refused.
    fn write(&mut self, bytes: &[u8]) -> Result<usize, WriteFailed>
        requires { self.old.failures < 2 ^ 64 - 1 }
        ensures bound { IfOk result (λ n. n ≤ length bytes.now) }
        ensures some { IfOk result (λ n. 0 < length bytes.now → 0 < n) }
        ensures bytes { Appends (Some self.old.taken) (Some self.new.taken) (moved result bytes.now) }
        ensures failed { self.new.failures ≡ self.old.failures + failure_count result }
        ensures count { IfOk result (λ n. n ≡ page_room (length self.old.taken) self.old.step self.old.limit (length bytes.now)) }
        ensures full { 0 < length bytes.now → page_room (length self.old.taken) self.old.step self.old.limit (length bytes.now) ≡ 0
            → IsErr result }
        ensures same { (self.new.step ≡ self.old.step) × (self.new.limit ≡ self.old.limit) }
    {
        let n = count_taken(self.taken.len(), bytes.len(), self.step, self.limit);
        if n == 0 && !bytes.is_empty() {
            self.failures += 1;
            return Err(WriteFailed);
        }
        match self.taken.extend_from_slice(&bytes[..n]) {
            Ok(()) => Ok(n),
            Err(_) => {
                self.failures += 1;
                Err(WriteFailed)
            }
        }
    }
}
