//! What a reader counts of its calls.
ghost use Rattle.std.specs.Prelude.{◌≡◌, ◌+◌, ◌-◌, ◌^◌, ◌<◌, ◌≤◌, None, Some, IfOk, OnErr};
ghost use Rattle.peer_view.specs.Moves.{failure_count, end_count};

use crate::reader::ReadFailed;

/// How often a reader was called, told its end, and failed.
#[derive(Clone, Copy)]
pub struct ReadCounts {
    pub calls: u64,
    pub ends: u64,
    pub failures: u64,
    ghost ends_counted: { ends ≤ calls },
    ghost failures_counted: { failures ≤ calls },
}

impl ReadCounts {
    /// It was not called yet.
    pub fn none() -> ReadCounts
        ensures calls { result.calls ≡ 0 }
        ensures ends { result.ends ≡ 0 }
        ensures failures { result.failures ≡ 0 }
    {
        ReadCounts {
            calls: 0,
            ends: 0,
            failures: 0,
        }
    }

    /// Counts a call that gave so many bytes into this room, or failed, and says what it gave.
    pub fn count(&mut self, given: Option<usize>, room: &[u8]) -> Result<usize, ReadFailed>
        requires { self.old.calls < 2 ^ 64 - 1 }
        ensures given { IfOk result (λ n. given ≡ Some n) }
        ensures none { OnErr result (given ≡ None) }
        ensures called { self.new.calls ≡ self.old.calls + 1 }
        ensures end_told { self.new.ends ≡ self.old.ends + end_count result room.now }
        ensures failed { self.new.failures ≡ self.old.failures + failure_count result }
    {
        self.calls += 1;
        match given {
            Some(n) => {
                if n == 0 && !room.is_empty() {
                    self.ends += 1;
                }
                Ok(n)
            }
            None => {
                self.failures += 1;
                Err(ReadFailed)
            }
        }
    }
}
