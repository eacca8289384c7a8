//! Heads, counted as they come out of a stream.
ghost use Rattle.std.specs.Prelude.{true, ◌≡◌, ℕ, ◌+◌, ◌-◌, ◌^◌, ◌<◌};
ghost use Rattle.peer_head.specs.Blocks.{IsUnfinished};

use peer_head::{FieldPlaces, HeadBuf, Look};
use peer_view::{PeerRead, ReadFailed};

// How many reads are made at most.
const READS: u64 = 1_000_000;

/// Why no further head is counted.
#[derive(Clone, Copy, Debug, PartialEq, Eq)]
pub enum Stop {
    Ended,
    Fault,
    ReadFailed,
    Spent,
}

/// Counts the heads that the reader gives.
pub fn count_heads<R: PeerRead + Drop>(held: HeadBuf, reader: R) -> (u64, Stop)
    requires { R.calls reader + READS < 2 ^ 64 }
{
    let mut held = held;
    let mut places = FieldPlaces::new();
    let mut reader = reader;
    let mut count = 0;
    for made in 0..READS {
        match read_more(&mut held, &mut reader) {
            Err(_) => return (count, Stop::ReadFailed),
            Ok(0) => return (count, Stop::Ended),
            Ok(_) => {}
        }
        if !take_heads(&mut held, &mut places, &mut count) {
            return (count, Stop::Fault);
        }
    }
    (count, Stop::Spent)
}

// Reads once, behind the bytes held.
fn read_more<R: PeerRead>(held: &mut HeadBuf, reader: &mut R) -> Result<usize, ReadFailed>
    requires { R.calls reader.old < 2 ^ 64 - 1 }
    ensures { R.calls reader.new ≡ R.calls reader.old + 1 }
{
    match reader.read(held.room()) {
        Ok(n) => {
            held.filled(n);
            Ok(n)
        }
        Err(ReadFailed) => Err(ReadFailed),
    }
}

// Takes the heads that are held off the front, up to a fault, and tells whether there was none.
fn take_heads(held: &mut HeadBuf, places: &mut FieldPlaces, count: &mut u64) -> bool
    ensures { result ≡ true → IsUnfinished held.new.held }
{
    loop {
        let (look, len) = held.look(places);
        match look {
            Look::Need => return true,
            Look::Head(_) => {}
            Look::Fault(..) => return false,
        }
        held.drop_front(len);
        *count = count.saturating_add(1);
    }
}
