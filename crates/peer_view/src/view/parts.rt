//! The parts that a view lends, and views of a part.
ghost use Rattle.std.specs.Prelude.{◌≡◌, ◌<◌, ◌≤◌, length, take, drop, slice_index, slice_range, IfOk};

use super::ByteView;
use std::alloc::AllocError;

impl ByteView {
    /// The byte at an index.
    pub fn at(&self, index: usize) -> u8
        requires { index < length self.now }
        ensures { result ≡ slice_index self.now index }
    {
        self.as_slice()[index]
    }

    /// The bytes from one index to before another.
    pub fn range(&self, from: usize, to: usize) -> &[u8]
        requires order { from ≤ to }
        requires within { to ≤ length self.now }
        ensures { result.now ≡ slice_range self.now from to }
    {
        &self.as_slice()[from..to]
    }

    /// The bytes before an index, and the bytes from it on.
    pub fn parts_at(&self, index: usize) -> (&[u8], &[u8])
        requires { index ≤ length self.now }
        ensures front { result.0.now ≡ take index self.now }
        ensures back { result.1.now ≡ drop index self.now }
    {
        self.as_slice().split_at(index)
    }

    /// A view of the bytes from one index to before another, which shares the buffer if they are many.
    pub fn slice(&self, from: usize, to: usize) -> Result<ByteView, AllocError>
        requires order { from ≤ to }
        requires within { to ≤ length self.now }
        ensures { IfOk result (λ v. v ≡ slice_range self.now from to) }
    {
        let held = self.held.slice(from, to)?;
        Ok(ByteView { held })
    }

    /// A view of the bytes from an index on, which shares the buffer if they are many.
    pub fn slice_from(&self, from: usize) -> Result<ByteView, AllocError>
        requires { from ≤ length self.now }
        ensures { IfOk result (λ v. v ≡ drop from self.now) }
    {
        self.slice(from, self.len())
    }
}
