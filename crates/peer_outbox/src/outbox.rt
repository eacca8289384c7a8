//! The bytes that wait to be sent: large values are lent from where they are shared, and what lies between them is copied
//! together.
//!
//! It stands on the queue of bytes and on the views of `peer_view`. It promises the bytes that came and did not go, in
//! order, and lends them a piece at a time.
ghost use Rattle.std.specs.Prelude.{◌≡◌, ◌==◌, ◌≤◌, ◌<◌, ◌+◌, ◌∷◌, [], ◌++◌, length, take, drop, OnErr, OnOk, IfSome};
ghost use Rattle.std.specs.Bool.{OnTrue};
ghost use Rattle.std.specs.VecDeque.{deque_len};
ghost use Rattle.peer_reply.specs.Texts.{joined};
ghost use Rattle.peer_outbox.specs.Outboxes.{EndsIn, IsFrontOf};

use crate::byte_queue::ByteQueue;
use crate::parts::part_at;
use peer_view::ByteView;
use std::alloc::{AllocError, Global};
use std::cmp::min;
use std::collections::VecDeque;
use std::marker::Model;

/// Up to so many bytes are copied, to be sent with others. A longer value is lent from where it lies.
pub const MAX_COPIED: usize = 8192;

// How many pieces have room that is kept while none is there.
const KEPT_PIECES: usize = 4;

/// Pieces, and bytes behind them. The first piece goes when it was sent.
#[derive(Drop)]
pub struct Outbox {
    alloc: Global,
    pieces: VecDeque<ByteView>,
    /// How many bytes of the first piece were sent.
    start: usize,
    last: ByteQueue,
    /// How many bytes there are in all.
    len: usize,
}

impl Model for Outbox {
    ghost use Rattle.std.specs.Prelude.{◌≡◌, ◌+◌, ◌++◌, length};
    ghost use Rattle.peer_reply.specs.Joins.{join};
    ghost use Rattle.peer_outbox.specs.Outboxes.{Output, StartsIn, output_of};

    ghost Value = { Output };

    ghost view = { λ o. output_of o.pieces.items o.start o.last };

    ghost invariant = { λ o. StartsIn o.pieces.items o.start × (o.len + o.start ≡ length (join o.pieces.items ++ o.last)) };
}

// So many bytes, and those of the parts.
fn with_parts(bytes: usize, parts: &[&[u8]]) -> Option<usize>
    ensures { IfSome result (λ n. n ≡ bytes + length (joined parts.now)) }
{
    let mut all = bytes;
    for i in 0..parts.len() {
        all = all.checked_add(part_at(parts, i).len())?;
    }
    Some(all)
}

// Whether the first two parts have as many bytes as all parts have before the last `len` ones.
fn stand_before(parts: &[&[u8]; 4], len: usize) -> bool
    ensures { OnTrue result (length (joined (take 2 parts.now)) + len ≡ length (joined parts.now)) }
{
    let Some(all) = with_parts(0, parts) else {
        return false;
    };
    match with_parts(len, &parts[..2]) {
        Some(ahead) => ahead == all,
        None => false,
    }
}

// The last bytes and those of the parts become a piece, and the value another, or nothing does.
fn push_pieces(
    alloc: Global,
    pieces: &mut VecDeque<ByteView>,
    last: &mut ByteQueue,
    parts: &[&[u8]],
    value: &ByteView,
) -> Result<(), AllocError>
    ensures pieces { OnOk result (pieces.new.items ≡ pieces.old.items ++ (last.old ++ joined parts.now) ∷ value.now ∷ []) }
    ensures empty { OnOk result (last.new ≡ []) }
    ensures refused { OnErr result ((pieces.new.items ≡ pieces.old.items) × (last.new ≡ last.old)) }
{
    let value = value.share()?;
    pieces.reserve(2)?;
    let before = last.leave_with(alloc, parts)?;
    pieces.push_back_reserved(before);
    pieces.push_back_reserved(value);
    Ok(())
}

// The first piece goes.
fn drop_piece(pieces: &mut VecDeque<ByteView>)
    ensures { pieces.new.items ≡ drop 1 pieces.old.items }
{
    let _sent = pieces.pop_front();
    if pieces.is_empty() && pieces.capacity() > KEPT_PIECES {
        pieces.shrink_to_fit();
    }
}

impl Outbox {
    ghost use Rattle.std.specs.Prelude.{◌≡◌, ◌==◌, ◌≤◌, ◌<◌, ◌+◌, [], ◌++◌, length, drop, OnErr, OnOk};
    ghost use Rattle.peer_reply.specs.Texts.{joined};
    ghost use Rattle.peer_outbox.specs.Outboxes.{BeginsWithBoth, EndsIn, IsFrontOf};

    /// It takes no memory yet.
    pub fn new(alloc: Global) -> Outbox
        ensures { result.bytes ≡ [] }
    {
        Outbox {
            alloc,
            pieces: VecDeque::new(alloc),
            start: 0,
            last: ByteQueue::new(alloc),
            len: 0,
        }
    }

    pub fn len(&self) -> usize
        ensures { result ≡ length self.now.bytes }
    {
        self.len
    }

    pub fn is_empty(&self) -> bool
        ensures { result ≡ (length self.now.bytes == 0) }
    {
        self.len == 0
    }

    /// The first bytes: some, where there are any.
    pub fn front(&self) -> &[u8]
        ensures front { result.now ≡ self.now.front }
        ensures begins { IsFrontOf self.now.front self.now.bytes }
    {
        match self.pieces.front() {
            Some(piece) => &piece.as_slice()[self.start..],
            None => self.last.as_slice(),
        }
    }

    /// The bytes behind the first ones, as far as they lie together.
    pub fn second(&self) -> &[u8]
        ensures second { result.now ≡ self.now.second }
        ensures begins { BeginsWithBoth self.now.front self.now.second self.now.bytes }
    {
        match self.pieces.get(1) {
            Some(piece) => piece.as_slice(),
            None if self.pieces.is_empty() => &[],
            None => self.last.as_slice(),
        }
    }

    // So many of the first bytes go.
    fn drop_first(&mut self, n: usize)
        requires { n ≤ length self.old.front }
        ensures bytes { self.new.bytes ≡ drop n self.old.bytes }
        ensures next { n ≡ length self.old.front → self.new.front ≡ self.old.second }
    {
        self.len -= n;
        let Some(piece) = self.pieces.front() else {
            self.last.drop_front(n);
            return;
        };
        let end = piece.len();
        self.start += n;
        if self.start == end {
            drop_piece(&mut self.pieces);
            self.start = 0;
        }
    }

    /// So many of the first bytes go, and of those behind them.
    pub fn drop_front(&mut self, n: usize)
        requires { n ≤ length self.old.front + length self.old.second }
        ensures { self.new.bytes ≡ drop n self.old.bytes }
    {
        let first = min(n, self.front().len());
        self.drop_first(first);
        if first < n {
            self.drop_first(n - first);
        }
    }

    /// The bytes of all the parts come, or none where memory is refused.
    pub fn put(&mut self, parts: &[&[u8]]) -> Result<(), AllocError>
        ensures put { OnOk result (self.new.bytes ≡ self.old.bytes ++ joined parts.now) }
        ensures refused { OnErr result (self.new.bytes ≡ self.old.bytes) }
    {
        let Some(len) = with_parts(self.len, parts) else {
            return Err(AllocError);
        };
        match self.last.put(parts) {
            Ok(()) => {
                self.len = len;
                Ok(())
            }
            Err(fault) => Err(fault),
        }
    }

    /// The bytes of all the parts come, which end in the value, or none where memory is refused. A long value is lent, where
    /// the first two parts are what stands before it.
    pub fn put_value(&mut self, parts: &[&[u8]; 4], value: &ByteView) -> Result<(), AllocError>
        requires { EndsIn value.now (joined parts.now) }
        ensures put { OnOk result (self.new.bytes ≡ self.old.bytes ++ joined parts.now) }
        ensures refused { OnErr result (self.new.bytes ≡ self.old.bytes) }
    {
        if value.len() > MAX_COPIED && stand_before(parts, value.len()) {
            self.lend(&parts[..2], value)
        } else {
            self.put(parts)
        }
    }

    // The bytes of the parts come, and the value behind them, which is lent; or none where memory is refused.
    fn lend(&mut self, parts: &[&[u8]], value: &ByteView) -> Result<(), AllocError>
        requires parts { 0 < length (joined parts.now) }
        requires value { 0 < length value.now }
        ensures put { OnOk result (self.new.bytes ≡ self.old.bytes ++ (joined parts.now ++ value.now)) }
        ensures refused { OnErr result (self.new.bytes ≡ self.old.bytes) }
    {
        let Some(ahead) = with_parts(self.len, parts) else {
            return Err(AllocError);
        };
        let Some(len) = ahead.checked_add(value.len()) else {
            return Err(AllocError);
        };
        match push_pieces(self.alloc, &mut self.pieces, &mut self.last, parts, value) {
            Ok(()) => {
                self.len = len;
                Ok(())
            }
            Err(fault) => Err(fault),
        }
    }
}
