//! A reader of std, as a file, a pipe or a socket, whose bytes no contract can name.
ghost use Rattle.std.specs.Prelude.{◌≡◌, ℕ, ◌+◌, ◌-◌, ◌^◌, ◌<◌, ◌≤◌, length, None, IfOk};
ghost use Rattle.std.specs.Io.KnownBytes.{Appends, ReadConsumes};
ghost use Rattle.peer_view.specs.Moves.{moved, failure_count, end_count};

use crate::read_counts::ReadCounts;
use crate::reader::{PeerRead, ReadFailed};
use std::io::Read;

/// A reader of std. Each `Err` of it is a failure, an interrupted call too.
#[derive(Drop)]
pub struct StdReader<R> {
    inner: R,
    counts: ReadCounts,
}

impl<R: Read> StdReader<R> {
    ghost use Rattle.peer_view.specs.StdDevices.{reader_inner};

    /// A reader that was not called yet.
    pub fn new(inner: R) -> StdReader<R>
        ensures inner { reader_inner result ≡ inner }
        ensures calls { ⟦<StdReader<R> as PeerRead>⟧.calls result ≡ 0 }
        ensures ends { ⟦<StdReader<R> as PeerRead>⟧.ends result ≡ 0 }
        ensures failures { ⟦<StdReader<R> as PeerRead>⟧.failures result ≡ 0 }
    {
        StdReader {
            inner,
            counts: ReadCounts::none(),
        }
    }

    /// Gives the wrapped value back.
    pub fn into_inner(self) -> R
        ensures { result ≡ reader_inner self }
    {
        let StdReader { inner, counts: _ } = self;
        inner
    }
}

impl<R: Read> PeerRead for StdReader<R> {
    ghost given = { λ r. None };

    ghost calls = { λ r. r.counts.calls };

    ghost ends = { λ r. r.counts.ends };

    ghost failures = { λ r. r.counts.failures };

    /// Calls the wrapped reader once.
    fn read(&mut self, room: &mut [u8]) -> Result<usize, ReadFailed>
        requires { self.old.counts.calls < 2 ^ 64 - 1 }
        ensures bound { IfOk result (λ n. n ≤ length room.new) }
        ensures bytes { Appends None None (moved result room.new) }
        ensures called { self.new.counts.calls ≡ self.old.counts.calls + 1 }
        ensures end_told { self.new.counts.ends ≡ self.old.counts.ends + end_count result room.new }
        ensures failed { self.new.counts.failures ≡ self.old.counts.failures + failure_count result }
        ensures inner { ReadConsumes (R.remaining self.old.inner) (R.remaining self.new.inner) result room.new }
    {
        let given = self.inner.read(room).ok();
        self.counts.count(given, room)
    }
}
