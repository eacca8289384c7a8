//! The bytes of a connection that wait to be read as heads.
//!
//! Contracts see the bytes held and the free part behind them. Both lie in one vector, which never
//! grows; what is held moves to its front when the free part is lent.
ghost use Rattle.std.specs.Prelude.{◌≡◌, ℕ, ◌+◌, ◌-◌, ◌<◌, ◌≤◌, List, [], ◌++◌, length, take, drop, IfOk};
ghost use Rattle.std.specs.Borrow.{sem};
ghost use Rattle.peer_head.specs.Blocks.{HasBlock, Begins, IsFrontLength};
ghost use Rattle.peer_head.specs.Looks.{LooksAs};

use crate::look::{Look, look_at};
use crate::places::FieldPlaces;
use std::alloc::{AllocError, Global};
use std::marker::Model;

/// How many bytes a head may have, with the pairs CR LF before it.
pub const HEAD_LIMIT: usize = 16384;

/// Room for one head of the longest kind, and the bytes of the stream that lie in it.
#[derive(Drop)]
pub struct HeadBuf {
    bytes: Vec<u8>,
    start: usize,
    end: usize,
}

impl Model for HeadBuf {
    ghost use Rattle.std.specs.Prelude.{ℕ, ◌-◌, take, drop};
    ghost use Rattle.peer_head.specs.Buffers.{HeldBytes, IsWithinRoom};

    ghost Value = { HeldBytes };

    ghost view = { λ b. record {
      held = take (b.end - b.start) (drop b.start b.bytes.items);
      free = drop (b.end - b.start) b.bytes.items;
    } };

    ghost use Rattle.std.specs.Prelude.{length};

    ghost invariant = { λ b. IsWithinRoom b.start b.end (length b.bytes.items) };
}

impl HeadBuf {
    ghost use Rattle.peer_head.specs.Lending.{LendsFree};

    /// Reserves all the memory that a buffer ever takes.
    pub fn new(alloc: Global) -> Result<HeadBuf, AllocError>
        ensures empty { IfOk result (λ b. b.held ≡ []) }
        ensures room { IfOk result (λ b. length b.free ≡ HEAD_LIMIT) }
    {
        Ok(HeadBuf {
            bytes: vec![in alloc; 0; HEAD_LIMIT]?,
            start: 0,
            end: 0,
        })
    }

    /// The free part, which is as long as the limit less the bytes held.
    pub fn room(&mut self) -> &mut [u8]
        ensures* lends { sem 𝓛 (LendsFree self.entry result) }
        ensures value { result.now ≡ self.old.free }
        ensures len { length self.old.held + length result.now ≡ HEAD_LIMIT }
    {
        let len = self.end - self.start;
        move_to_front(&mut self.bytes, self.start, self.end);
        self.start = 0;
        self.end = len;
        self.bytes.slice_mut(len..)
    }

    /// Holds the first `n` bytes of the free part too.
    pub fn filled(&mut self, n: usize)
        requires { n ≤ length self.old.free }
        ensures held { self.new.held ≡ self.old.held ++ take n self.old.free }
        ensures free { self.new.free ≡ drop n self.old.free }
    {
        let len = self.end - self.start;
        move_to_front(&mut self.bytes, self.start, self.end);
        self.start = 0;
        self.end = len + n;
    }

    /// The bytes held.
    pub fn rest(&self) -> &[u8]
        ensures bytes { result.now ≡ self.now.held }
        ensures within { length self.now.held + length self.now.free ≡ HEAD_LIMIT }
    {
        &self.bytes[self.start..self.end]
    }

    /// What the bytes held are, and how many of them the first block takes with the pairs before it, 0 where there is no
    /// block. Where the fields of a head stand is written into `places`.
    pub fn look<'b>(&'b self, places: &'b mut FieldPlaces) -> (Look<'b>, usize)
        ensures look { LooksAs self.now.held result.0 }
        ensures front { IsFrontLength self.now.held result.1 }
        ensures room { result.0 ≡ Look.Need → 0 < length self.now.free }
    {
        look_at(self.rest(), &mut places.places)
    }

    /// Drops the first block, and the pairs CR LF before it, which take `len` bytes.
    pub fn drop_front(&mut self, len: usize)
        requires block { HasBlock self.old.held }
        requires len { IsFrontLength self.old.held len }
        ensures rest { (block : List ℕ) × Begins self.old.held block self.new.held }
        ensures within { length self.new.held + length self.new.free ≡ HEAD_LIMIT }
    {
        self.start += len;
    }
}

// Moves the bytes from `start` up to `end` to the front.
fn move_to_front(bytes: &mut Vec<u8>, start: usize, end: usize)
    requires ordered { start ≤ end }
    requires in_range { end ≤ length bytes.old.items }
    ensures { bytes.new.items ≡ take (end - start) (drop start bytes.old.items) ++ drop (end - start) bytes.old.items }
{
    if start > 0 {
        bytes.copy_within(start..end, 0);
    }
}
