//! The part of a program whose growths are counted, and may be refused.
//!
//! `bench/refuse.c` stands in for the C library's allocator. It counts from a growth of the one size on to a growth of
//! the other, and refuses neither of the two. Without it these calls change nothing.

use std::alloc::Global;

const BEGIN: usize = 7_340_033;

const END: usize = 7_340_035;

/// Growths are counted from here on.
pub fn begin(alloc: Global) {
    mark(alloc, BEGIN);
}

/// No further growth is counted.
pub fn end(alloc: Global) {
    mark(alloc, END);
}

// Takes so many bytes, and lets go of them.
fn mark(alloc: Global, size: usize) {
    if let Ok(bytes) = Vec::<u8>::with_capacity(alloc, size) {
        drop(bytes);
    }
}
