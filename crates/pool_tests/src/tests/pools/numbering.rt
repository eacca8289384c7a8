//! The source of the tests, whose answers change from call to call.
ghost use Rattle.std.specs.Prelude.{◌≡◌, None, Some};
ghost use Rattle.peer_source.specs.Answers.{Failed, IsWithinLimit, too_long_text};

use peer_source::{GetFault, GetResult, GroupId, Source};
use peer_view::AllocSink;
use std::alloc::{AllocError, Global};
use std::sync::atomic::AtomicU64;
use std::sync::atomic::Ordering::SeqCst;
use std::thread::yield_now;

/// Finds the key, and behind it the last digit of the number of the call.
#[derive(Drop)]
pub struct Numbering {
    pub calls: AtomicU64,
    pub groups: usize,
    // So many calls fail before one finds a value.
    failures: u64,
    // Each call waits until so many were made.
    together: u64,
}

// Looks before it gives up. They last for minutes: where both calls run, the second comes within some of them.
const MAX_LOOKS: u64 = 1 << 32;

// The key, and behind it the last digit of the number.
fn numbered(alloc: Global, key: &[u8], number: u64) -> Result<Vec<u8>, AllocError> {
    let mut value = key.to_vec(alloc)?;
    value.push(b'0' + (number % 10) as u8)?;
    Ok(value)
}

impl Numbering {
    /// A source that was not called.
    pub fn new(groups: usize, failures: u64, together: u64) -> Numbering
        ensures { result.groups ≡ groups }
    {
        Numbering {
            calls: AtomicU64::new(0),
            groups,
            failures,
            together,
        }
    }

    fn wait_for_calls(&self) {
        for _ in 0..MAX_LOOKS {
            if self.calls.load(SeqCst) >= self.together {
                return;
            }
            yield_now();
        }
    }
}

impl Source for Numbering {
    ghost answers = { λ s g k a. IsWithinLimit (Some a) };

    ghost allowed = { λ g k a. IsWithinLimit (Some a) };

    ghost count = { λ s. s.groups };

    ghost number_of = { λ s name. None };

    fn group_count(&self) -> usize {
        self.groups
    }

    fn group(&self, _name: &[u8]) -> Option<GroupId> {
        None
    }

    fn get(&self, alloc: Global, _group: GroupId, key: &[u8], sink: &mut AllocSink) -> GetResult {
        let number = self.calls.fetch_add(1, SeqCst).wrapping_add(1);
        self.wait_for_calls();
        if number <= self.failures {
            return Err(GetFault::TooLong);
        }
        let Ok(value) = numbered(alloc, key, number) else {
            return Err(GetFault::Memory);
        };
        match sink.set_bytes(alloc, &value) {
            Ok(()) => Ok(()),
            Err(_) => Err(GetFault::Memory),
        }
    }

    ghost within = { λ s g k a h. h };

    ghost limited = { λ g k a h. h };

    ghost answered = { λ s g k. (Failed too_long_text, tt) };

    ghost numbered = { λ s name i e. absurd (cc) };
}
