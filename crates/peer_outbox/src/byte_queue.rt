//! Bytes that come at the back and go at the front.
//!
//! It stands on the shared bytes of `bytes`, and on the views of `peer_view`. It promises the bytes that came and did not
//! go, in order; and it takes no memory before the first.
ghost use Rattle.std.specs.Prelude.{◌≡◌, ◌==◌, ◌≤◌, [], ◌+◌, ◌++◌, length, drop, OnErr, OnOk, IfOk};
ghost use Rattle.peer_reply.specs.Texts.{joined};

use crate::parts::part_at;
use peer_view::{ByteView, cut_front};
use std::alloc::{AllocError, Global};
use std::marker::Model;

// How much memory is kept while no byte is there.
const KEPT: usize = 2048;

/// A queue of bytes. Those that went lie before the others for a while.
#[derive(Drop)]
pub struct ByteQueue {
    bytes: Vec<u8>,
    start: usize,
}

impl Model for ByteQueue {
    ghost use Rattle.std.specs.Prelude.{ℕ, ◌≤◌, List, length, drop};

    ghost Value = { List ℕ };

    ghost view = { λ q. drop q.start q.bytes.items };

    ghost invariant = { λ q. q.start ≤ length q.bytes.items };
}

impl ByteQueue {
    pub fn new(alloc: Global) -> ByteQueue
        ensures { result ≡ [] }
    {
        ByteQueue {
            bytes: Vec::new(alloc),
            start: 0,
        }
    }

    pub fn as_slice(&self) -> &[u8]
        ensures { result.now ≡ self.now }
    {
        &self.bytes[self.start..]
    }

    pub fn len(&self) -> usize
        ensures { result ≡ length self.now }
    {
        self.as_slice().len()
    }

    pub fn is_empty(&self) -> bool
        ensures { result ≡ (length self.now == 0) }
    {
        self.len() == 0
    }

    /// The first `n` bytes go.
    pub fn drop_front(&mut self, n: usize)
        requires { n ≤ length self.old }
        ensures { self.new ≡ drop n self.old }
    {
        self.start += n;
        if self.start == self.bytes.len() {
            empty(&mut self.bytes);
            self.start = 0;
        }
    }

    /// The bytes of all the parts come, or none where memory is refused.
    pub fn put(&mut self, parts: &[&[u8]]) -> Result<(), AllocError>
        ensures put { OnOk result (self.new ≡ self.old ++ joined parts.now) }
        ensures refused { OnErr result (self.new ≡ self.old) }
    {
        compact(&mut self.bytes, &mut self.start);
        append_parts(&mut self.bytes, parts)
    }

    /// These bytes come, or none where memory is refused.
    pub fn push(&mut self, more: &[u8]) -> Result<(), AllocError>
        ensures put { OnOk result (self.new ≡ self.old ++ more.now) }
        ensures refused { OnErr result (self.new ≡ self.old) }
    {
        compact(&mut self.bytes, &mut self.start);
        self.bytes.extend_from_slice(more)
    }

    /// All its bytes, and behind them those of the parts, leave as a view, or none where memory is refused.
    pub fn leave_with(&mut self, alloc: Global, parts: &[&[u8]]) -> Result<ByteView, AllocError>
        ensures view { IfOk result (λ v. v ≡ self.old ++ joined parts.now) }
        ensures empty { OnOk result (self.new ≡ []) }
        ensures refused { OnErr result (self.new ≡ self.old) }
    {
        let view = view_of(alloc, self.as_slice(), parts)?;
        empty(&mut self.bytes);
        self.start = 0;
        Ok(view)
    }
}

// Empties it, and gives back the memory beyond what is kept.
fn empty(bytes: &mut Vec<u8>)
    ensures { bytes.new.items ≡ [] }
{
    bytes.clear();
    bytes.shrink_to(KEPT);
}

// Lets the bytes before `start` go, where they are more than the others: those that went lie here for a while, and never more
// of them than of those that wait.
fn compact(bytes: &mut Vec<u8>, start: &mut usize)
    requires { start.old ≤ length bytes.old.items }
    ensures same { drop start.new bytes.new.items ≡ drop start.old bytes.old.items }
    ensures few { start.new + start.new ≤ length bytes.new.items }
{
    if *start > bytes.len() - *start {
        cut_front(bytes, *start);
        *start = 0;
    }
}

// Appends the parts: all of them, or none.
fn append_parts(bytes: &mut Vec<u8>, parts: &[&[u8]]) -> Result<(), AllocError>
    ensures put { OnOk result (bytes.new.items ≡ bytes.old.items ++ joined parts.now) }
    ensures refused { OnErr result (bytes.new.items ≡ bytes.old.items) }
{
    let before = bytes.len();
    for i in 0..parts.len() {
        if let Err(fault) = bytes.extend_from_slice(part_at(parts, i)) {
            bytes.truncate(before);
            return Err(fault);
        }
    }
    Ok(())
}

// A view of the bytes, and behind them those of the parts.
fn view_of(alloc: Global, bytes: &[u8], parts: &[&[u8]]) -> Result<ByteView, AllocError>
    ensures { IfOk result (λ v. v ≡ bytes.now ++ joined parts.now) }
{
    let mut all = Vec::new(alloc);
    all.extend_from_slice(bytes)?;
    append_parts(&mut all, parts)?;
    ByteView::from_vec(all)
}
