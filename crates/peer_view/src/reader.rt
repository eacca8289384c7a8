//! What gives bytes.
ghost use Rattle.std.specs.Prelude.{◌≡◌, ℕ, ◌+◌, ◌-◌, ◌^◌, ◌<◌, ◌≤◌, List, length, Option, IfOk};
ghost use Rattle.std.specs.Io.KnownBytes.{Appends};
ghost use Rattle.peer_view.specs.Moves.{moved, failure_count, end_count};

/// A read failed: it gave nothing.
#[derive(Clone, Copy, Debug, PartialEq, Eq)]
pub struct ReadFailed;

/// What gives bytes, and counts its calls.
pub trait PeerRead {
    // The bytes given so far, where the reader tells them.
    ghost given: { Self → Option (List ℕ) };
    // The calls of `read` so far.
    ghost calls: { Self → ℕ };
    // How often the end was told: no byte into a room that is not empty.
    ghost ends: { Self → ℕ };
    // How many calls failed.
    ghost failures: { Self → ℕ };

    /// Gives bytes into the front of the room, and says how many.
    ///
    /// `Ok(0)` into a room that is not empty tells the end. A failed call gives nothing.
    fn read(&mut self, room: &mut [u8]) -> Result<usize, ReadFailed>
        requires { calls self.old < 2 ^ 64 - 1 }
        ensures bound { IfOk result (λ n. n ≤ length room.new) }
        ensures bytes { Appends (given self.old) (given self.new) (moved result room.new) }
        ensures called { calls self.new ≡ calls self.old + 1 }
        ensures end_told { ends self.new ≡ ends self.old + end_count result room.new }
        ensures failed { failures self.new ≡ failures self.old + failure_count result };
}
