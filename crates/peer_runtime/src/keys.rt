//! The keys of a slab, for those who go over all its values while they change them.
//!
//! It stands on `slab`. It promises that no value has a key that is not among them.
ghost use Rattle.std.specs.Prelude.{◌≡◌, ◌≤◌, length};

use slab::Slab;
use std::ops::Range;

/// All keys that a slab may have. Each value that was taken out leaves its key free, so keys may be larger than the slab has values.
pub fn keys_of<T>(slab: &Slab<T>) -> Range<usize>
    ensures first { result.start ≡ 0 }
    ensures all { length slab.now.slots ≤ result.end }
{
    0..slab.capacity()
}
