//! Copying what fits into the front of a room, and forgetting the front of bytes.
ghost use Rattle.std.specs.Prelude.{◌≡◌, ◌≤◌, ◌++◌, length, take, drop, min};

/// Copies what fits into the front of the room, and says how many bytes. The rest of the room stays.
pub(crate) fn copy_front(room: &mut [u8], from: &[u8]) -> usize
    ensures count { result ≡ min (length room.old) (length from.now) }
    ensures copied { take result room.new ≡ take result from.now }
    ensures whole { room.new ≡ take result from.now ++ drop result room.old }
{
    let n = room.len().min(from.len());
    room[..n].copy_from_slice(&from[..n]);
    n
}

/// Forgets the first `n` bytes. The memory is kept.
pub fn cut_front(bytes: &mut Vec<u8>, n: usize)
    requires { n ≤ length bytes.old.items }
    ensures { bytes.new.items ≡ drop n bytes.old.items }
{
    let len = bytes.len();
    bytes.copy_within(n..len, 0);
    bytes.truncate(len - n);
}
