//! What takes bytes, and the writing of all of a slice.
ghost use Rattle.std.specs.Prelude.{◌≡◌, ℕ, ◌+◌, ◌-◌, ◌^◌, ◌<◌, ◌≤◌, List, [], length, take, Option, IfOk, IfErr};
ghost use Rattle.std.specs.Io.KnownBytes.{Appends};
ghost use Rattle.peer_view.specs.Moves.{moved, failure_count, Sends};

/// A write failed: it took nothing.
#[derive(Clone, Copy, Debug, PartialEq, Eq)]
pub struct WriteFailed;

/// A write failed once exactly the first `written` bytes had gone out.
#[derive(Clone, Copy, Debug, PartialEq, Eq)]
pub struct WriteFault {
    pub written: usize,
}

/// What takes bytes, and counts its failures.
pub trait PeerWrite {
    // The bytes taken so far, where the writer tells them.
    ghost taken: { Self → Option (List ℕ) };
    // How many calls failed.
    ghost failures: { Self → ℕ };

    /// Takes bytes from the front of the slice, and says how many: at least one, unless there is none.
    fn write(&mut self, bytes: &[u8]) -> Result<usize, WriteFailed>
        requires { failures self.old < 2 ^ 64 - 1 }
        ensures bound { IfOk result (λ n. n ≤ length bytes.now) }
        ensures some { IfOk result (λ n. 0 < length bytes.now → 0 < n) }
        ensures bytes { Appends (taken self.old) (taken self.new) (moved result bytes.now) }
        ensures failed { failures self.new ≡ failures self.old + failure_count result };
}

/// Writes all the bytes, by as many calls as it takes.
pub fn write_all<W: PeerWrite>(writer: &mut W, bytes: &[u8]) -> Result<(), WriteFault>
    requires { W.failures writer.old < 2 ^ 64 - 1 }
    ensures sends { Sends result (W.failures writer.old) (W.failures writer.new) (W.taken writer.old) (W.taken writer.new) bytes.now [] }
    ensures written { IfErr result (λ e. (e.written ≤ length bytes.now)
        × Appends (W.taken writer.old) (W.taken writer.new) (take e.written bytes.now)) }
{
    let mut at = 0;
    while at < bytes.len() {
        match writer.write(&bytes[at..]) {
            Ok(n) => at += n,
            Err(_) => return Err(WriteFault { written: at }),
        }
    }
    Ok(())
}
