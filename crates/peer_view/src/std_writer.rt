//! A writer of std, as a file, a pipe or a socket, whose bytes no contract can name.
ghost use Rattle.std.specs.Prelude.{◌≡◌, ℕ, ◌+◌, ◌-◌, ◌^◌, ◌<◌, ◌≤◌, length, None, IfOk};
ghost use Rattle.std.specs.Io.KnownBytes.{Appends};
ghost use Rattle.peer_view.specs.Moves.{moved, failure_count};

use crate::writer::{PeerWrite, WriteFailed};
use std::io::Write;

/// A writer of std. Each `Err` of it is a failure, an interrupted call too, and so is a write of 0 bytes for a slice
/// that is not empty.
#[derive(Drop)]
pub struct StdWriter<W> {
    inner: W,
    failures: u64,
}

impl<W: Write> StdWriter<W> {
    ghost use Rattle.peer_view.specs.StdDevices.{writer_inner};

    /// A writer that has not failed yet.
    pub fn new(inner: W) -> StdWriter<W>
        ensures inner { writer_inner result ≡ inner }
        ensures failures { ⟦<StdWriter<W> as PeerWrite>⟧.failures result ≡ 0 }
    {
        StdWriter { inner, failures: 0 }
    }

    /// Gives the wrapped value back.
    pub fn into_inner(self) -> W
        ensures { result ≡ writer_inner self }
    {
        let StdWriter { inner, failures: _ } = self;
        inner
    }
}

impl<W: Write> PeerWrite for StdWriter<W> {
    ghost taken = { λ w. None };

    ghost failures = { λ w. w.failures };

    /// Calls the wrapped writer once.
    fn write(&mut self, bytes: &[u8]) -> Result<usize, WriteFailed>
        requires { self.old.failures < 2 ^ 64 - 1 }
        ensures bound { IfOk result (λ n. n ≤ length bytes.now) }
        ensures some { IfOk result (λ n. 0 < length bytes.now → 0 < n) }
        ensures bytes { Appends None None (moved result bytes.now) }
        ensures failed { self.new.failures ≡ self.old.failures + failure_count result }
        ensures inner { Appends (W.contents self.old.inner) (W.contents self.new.inner) (moved result bytes.now) }
    {
        match self.inner.write(bytes) {
            Ok(n) if n > 0 || bytes.is_empty() => Ok(n),
            _ => {
                self.failures += 1;
                Err(WriteFailed)
            }
        }
    }
}
