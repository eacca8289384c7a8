//! The bytes of a view, copied out, compared or sent.
ghost use Rattle.std.specs.Prelude.{◌≡◌, ℕ, ◌+◌, ◌-◌, ◌^◌, ◌<◌, ◌≤◌, ◌⊎◌, ◌↔◌, [], ◌++◌, length, take, drop, min};
ghost use Rattle.std.specs.Prelude.{Err, IsTrue, IfOk, IfErr, IsUtf8, string_bytes};
ghost use Rattle.std.specs.Io.KnownBytes.{Appends};
ghost use Rattle.peer_view.specs.Moves.{Sends};

use super::ByteView;
use crate::front::copy_front;
use crate::writer::{PeerWrite, WriteFault, write_all};
use std::alloc::{AllocError, Global};
use std::str;

/// Why a view gave no text.
#[derive(Clone, Copy, Debug, PartialEq, Eq)]
pub enum TextFault {
    /// The bytes are not UTF-8.
    NotUtf8,
    /// Memory for the text was refused.
    Memory,
}

impl ByteView {
    /// Copies the bytes that fit into the front of the destination, and says how many. The rest of it stays.
    pub fn copy_to(&self, destination: &mut [u8]) -> usize
        ensures count { result ≡ min (length destination.old) (length self.now) }
        ensures destination { destination.new ≡ take result self.now ++ drop result destination.old }
    {
        copy_front(destination, self.as_slice())
    }

    /// Copies the bytes from an offset on that fit into the room, and says how many, and whether the end was met:
    /// the offset is at or behind the end, or room is left (`ReadAt` of `byteview.go`).
    pub fn read_at(&self, offset: usize, room: &mut [u8]) -> (usize, bool)
        ensures count { result.0 ≡ min (length room.old) (length self.now - offset) }
        ensures room { room.new ≡ take result.0 (drop offset self.now) ++ drop result.0 room.old }
        ensures end { IsTrue result.1 ↔ ((length self.now ≤ offset) ⊎ (result.0 < length room.old)) }
    {
        if offset >= self.len() {
            return (0, true);
        }
        let count = copy_front(room, &self.as_slice()[offset..]);
        (count, count < room.len())
    }

    /// Whether these are the bytes.
    pub fn eq_bytes(&self, bytes: &[u8]) -> bool
        ensures { IsTrue result ↔ (self.now ≡ bytes.now) }
    {
        self.as_slice() == bytes
    }

    /// The same bytes, in a vector of their own.
    pub fn to_vec(&self, alloc: Global) -> Result<Vec<u8>, AllocError>
        ensures { IfOk result (λ v. v.items ≡ self.now) }
    {
        Vec::from_slice(alloc, self.as_slice())
    }

    /// The same bytes as a text.
    pub fn to_text(&self, alloc: Global) -> Result<String, TextFault>
        ensures ok { IfOk result (λ t. string_bytes t ≡ self.now) }
        ensures not_utf8 { (result ≡ Err TextFault.NotUtf8) ↔ ¬ (IsUtf8 self.now) }
    {
        match str::from_utf8(self.as_slice()) {
            Err(_) => Err(TextFault::NotUtf8),
            Ok(text) => match String::from_str(alloc, text) {
                Ok(text) => Ok(text),
                Err(AllocError) => Err(TextFault::Memory),
            },
        }
    }

    /// Writes all the bytes, by as many calls as it takes (`WriteTo` of `byteview.go`).
    pub fn write_to<W: PeerWrite>(&self, writer: &mut W) -> Result<(), WriteFault>
        requires { W.failures writer.old < 2 ^ 64 - 1 }
        ensures sends { Sends result (W.failures writer.old) (W.failures writer.new) (W.taken writer.old) (W.taken writer.new) self.now [] }
        ensures written { IfErr result (λ e. (e.written ≤ length self.now)
            × Appends (W.taken writer.old) (W.taken writer.new) (take e.written self.now)) }
    {
        write_all(writer, self.as_slice())
    }
}
