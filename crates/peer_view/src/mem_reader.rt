//! A reader over pieces in memory, which can be made to fail at its end.
ghost use Rattle.std.specs.Prelude.{◌≡◌, ◌≢◌, ℕ, ◌+◌, ◌-◌, ◌^◌, ◌<◌, ◌≤◌, ◌↔◌, [], ◌++◌, length, take, Some, IfOk, IsErr, IsTrue};
ghost use Rattle.std.specs.Io.KnownBytes.{Appends};
ghost use Rattle.peer_view.specs.Moves.{moved, failure_count, end_count};
ghost use Rattle.peer_view.specs.Pieces.{given_of, left_of, piece_at, first_piece, after_read, pieces_of, GivesPiece};

use crate::front::copy_front;
use crate::read_counts::ReadCounts;
use crate::reader::{PeerRead, ReadFailed};
use std::marker::Model;

/// Gives at most one piece a read, the rest of a piece at the next read, and skips empty pieces. After the last one
/// it fails, or tells its end.
#[derive(Drop)]
pub struct MemReader {
    pieces: Vec<Vec<u8>>,
    index: usize,
    offset: usize,
    fails: bool,
    counts: ReadCounts,
}

impl Model for MemReader {
    ghost use Rattle.peer_view.specs.Pieces.{Tape, given_of, left_of};

    ghost Value = { Tape };

    ghost view = { λ r. record {
      given = given_of r.pieces.items r.index r.offset;
      left = left_of r.pieces.items r.index r.offset;
      fails = r.fails;
      calls = r.counts.calls;
      ends = r.counts.ends;
      failures = r.counts.failures;
    } };
}

// How far a list of pieces was given: the index of a piece, and how much of it was given.
#[derive(Clone, Copy)]
struct Cursor {
    index: usize,
    offset: usize,
}

// The piece at an index.
fn piece(pieces: &[Vec<u8>], index: usize) -> &[u8]
    requires { index < length pieces.now }
    ensures { result.now ≡ piece_at pieces.now index }
{
    pieces[index].as_slice()
}

// The first piece from here on of which a byte is left.
fn next_left(pieces: &[Vec<u8>], from: Cursor) -> Cursor
    ensures given { given_of pieces.now result.index result.offset ≡ given_of pieces.now from.index from.offset }
    ensures left { left_of pieces.now result.index result.offset ≡ left_of pieces.now from.index from.offset }
    ensures within { result.index < length pieces.now → result.offset < length (piece_at pieces.now result.index) }
    ensures some { result.index < length pieces.now → left_of pieces.now from.index from.offset ≢ [] }
    ensures none { length pieces.now ≤ result.index → left_of pieces.now from.index from.offset ≡ [] }
{
    let mut at = from;
    while at.index < pieces.len() {
        if at.offset < piece(pieces, at.index).len() {
            return at;
        }
        at = Cursor {
            index: at.index + 1,
            offset: 0,
        };
    }
    at
}

// Gives of a piece of which a byte is left.
fn give(pieces: &[Vec<u8>], at: Cursor, room: &mut [u8]) -> usize
    requires within { at.index < length pieces.now }
    requires left { at.offset < length (piece_at pieces.now at.index) }
    ensures bound { result ≤ length room.old }
    ensures fits { at.offset + result < 2 ^ 64 }
    ensures some { 0 < length room.old → 0 < result }
    ensures given { given_of pieces.now at.index (at.offset + result) ≡ given_of pieces.now at.index at.offset ++ take result room.new }
    ensures piece { take result room.new ≡ take (length room.old) (first_piece (left_of pieces.now at.index at.offset)) }
    ensures left { left_of pieces.now at.index (at.offset + result) ≡ after_read (length room.old) (left_of pieces.now at.index at.offset) }
{
    let piece = piece(pieces, at.index);
    copy_front(room, &piece[at.offset..])
}

impl MemReader {
    /// A reader that was not called yet.
    pub fn new(pieces: Vec<Vec<u8>>, fails: bool) -> MemReader
        ensures { result ≡ record { given = []; left = pieces_of pieces.items; fails = fails; calls = 0; ends = 0; failures = 0 } }
    {
        MemReader {
            pieces,
            index: 0,
            offset: 0,
            fails,
            counts: ReadCounts::none(),
        }
    }
}

impl PeerRead for MemReader {
    ghost given = { λ r. Some r.given };

    ghost calls = { λ r. r.calls };

    ghost ends = { λ r. r.ends };

    ghost failures = { λ r. r.failures };

    fn read(&mut self, room: &mut [u8]) -> Result<usize, ReadFailed>
        requires { self.old.calls < 2 ^ 64 - 1 }
        ensures bound { IfOk result (λ n. n ≤ length room.new) }
        ensures bytes { Appends (Some self.old.given) (Some self.new.given) (moved result room.new) }
        ensures called { self.new.calls ≡ self.old.calls + 1 }
        ensures end_told { self.new.ends ≡ self.old.ends + end_count result room.new }
        ensures failed { self.new.failures ≡ self.old.failures + failure_count result }
        ensures piece { GivesPiece (length room.old) (moved result room.new) self.old self.new }
        ensures fails { IsErr result ↔ ((0 < length room.old) × (self.old.left ≡ []) × IsTrue self.old.fails) }
    {
        let at = next_left(
            &self.pieces,
            Cursor {
                index: self.index,
                offset: self.offset,
            },
        );
        if at.index < self.pieces.len() {
            let n = give(&self.pieces, at, room);
            self.index = at.index;
            self.offset = at.offset + n;
            return self.counts.count(Some(n), room);
        }
        let given = if self.fails && !room.is_empty() {
            None
        } else {
            Some(0)
        };
        self.counts.count(given, room)
    }
}
