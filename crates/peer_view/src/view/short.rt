//! A few bytes, in the value itself.
ghost use Rattle.std.specs.Prelude.{◌≡◌, ◌≤◌, length};
ghost use Rattle.peer_view.specs.Short.{SHORT};

use crate::front::copy_front;
use std::marker::Model;

/// The most bytes that a view holds itself.
pub const SHORT: usize = 46;

/// At most `SHORT` bytes. What stands after them in the array is of no account.
#[derive(Drop)]
pub(super) struct ShortBytes {
    len: u8,
    bytes: [u8; SHORT],
}

impl Model for ShortBytes {
    ghost use Rattle.std.specs.Prelude.{List, ℕ, ◌≤◌, take};
    ghost use Rattle.peer_view.specs.Short.{SHORT};

    ghost Value = { List ℕ };

    ghost view = { λ s. take s.len s.bytes };

    ghost invariant = { λ s. s.len ≤ SHORT };
}

impl ShortBytes {
    /// A copy of the bytes.
    pub(super) fn copy_of(bytes: &[u8]) -> ShortBytes
        requires { length bytes.now ≤ SHORT }
        ensures { result ≡ bytes.now }
    {
        let mut held = [0; SHORT];
        let len = copy_front(&mut held, bytes);
        ShortBytes {
            len: len as u8,
            bytes: held,
        }
    }

    /// The same bytes again.
    pub(super) fn again(&self) -> ShortBytes
        ensures { result ≡ self.now }
    {
        ShortBytes {
            len: self.len,
            bytes: self.bytes,
        }
    }

    /// The length in bytes.
    pub(super) fn len(&self) -> usize
        ensures { result ≡ length self.now }
    {
        usize::from(self.len)
    }

    /// All the bytes.
    pub(super) fn as_slice(&self) -> &[u8]
        ensures value { result.now ≡ self.now }
        ensures fits { length result.now ≤ SHORT }
    {
        &self.bytes[..usize::from(self.len)]
    }
}
