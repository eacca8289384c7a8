//! Where a view holds its bytes.
ghost use Rattle.std.specs.Prelude.{◌≡◌, ◌≤◌, length, slice_range, IfOk};
ghost use Rattle.peer_view.specs.Views.{held_bytes};

use super::short::{SHORT, ShortBytes};
use bytes::Bytes;
use std::alloc::{AllocError, Global};

/// The bytes of a view: a few in the value itself, or in a shared buffer.
#[derive(Drop)]
pub(super) enum Held {
    Short(ShortBytes),
    Shared(Bytes<Global>),
}

impl Held {
    /// A copy of the bytes, which takes memory if they are more than `SHORT`.
    pub(super) fn copy_of(alloc: Global, bytes: &[u8]) -> Result<Held, AllocError>
        ensures { IfOk result (λ h. held_bytes h ≡ bytes.now) }
    {
        if bytes.len() <= SHORT {
            return Ok(Held::Short(ShortBytes::copy_of(bytes)));
        }
        let bytes = Bytes::copy_from_slice(alloc, bytes)?;
        Ok(Held::Shared(bytes))
    }

    /// These bytes. It takes the vector over, unless they are few, or its room is larger than they are by an eighth: then it
    /// copies them, and no more memory is held than they need.
    pub(super) fn from_vec(bytes: Vec<u8>) -> Result<Held, AllocError>
        ensures { IfOk result (λ h. held_bytes h ≡ bytes.items) }
    {
        let unused = bytes.capacity().saturating_sub(bytes.len());
        if bytes.len() <= SHORT || unused > bytes.len() / 8 {
            return Held::copy_of(*bytes.allocator(), &bytes);
        }
        let bytes = Bytes::from_vec(bytes)?;
        Ok(Held::Shared(bytes))
    }

    /// The same bytes again.
    pub(super) fn share(&self) -> Result<Held, AllocError>
        ensures { IfOk result (λ h. held_bytes h ≡ held_bytes self.now) }
    {
        match self {
            Held::Short(short) => Ok(Held::Short(short.again())),
            Held::Shared(bytes) => {
                let bytes = bytes.clone()?;
                Ok(Held::Shared(bytes))
            }
        }
    }

    /// The bytes from one index to before another, which are copied if they are at most `SHORT`.
    pub(super) fn slice(&self, from: usize, to: usize) -> Result<Held, AllocError>
        requires order { from ≤ to }
        requires within { to ≤ length (held_bytes self.now) }
        ensures { IfOk result (λ h. held_bytes h ≡ slice_range (held_bytes self.now) from to) }
    {
        match self {
            Held::Short(short) => {
                Ok(Held::Short(ShortBytes::copy_of(&short.as_slice()[from..to])))
            }
            Held::Shared(bytes) => {
                if to - from <= SHORT {
                    return Ok(Held::Short(ShortBytes::copy_of(&bytes.as_slice()[from..to])));
                }
                let bytes = bytes.slice(from..to)?;
                Ok(Held::Shared(bytes))
            }
        }
    }

    /// The length in bytes.
    pub(super) fn len(&self) -> usize
        ensures { result ≡ length (held_bytes self.now) }
    {
        match self {
            Held::Short(short) => short.len(),
            Held::Shared(bytes) => bytes.len(),
        }
    }

    /// All the bytes.
    pub(super) fn as_slice(&self) -> &[u8]
        ensures { result.now ≡ held_bytes self.now }
    {
        match self {
            Held::Short(short) => short.as_slice(),
            Held::Shared(bytes) => bytes.as_slice(),
        }
    }
}
