//! The last head of a connection, by which the same head around another key is known without a parse.
//!
//! A client sends heads that differ in the key alone. It stands on the law that a head is a head around any other target
//! (`peer_head`), and on places of plain bytes (`peer_path`). It promises that what it answers is what a parse would.
ghost use Rattle.std.specs.Prelude.{◌≡◌, ◌↔◌, ◌≤◌, length, take, All, IfOk, IfSome, IsTrue};
ghost use Rattle.peer_path.specs.Plains.{IsPlainInName};
ghost use Rattle.peer_wish.specs.Lasts.{IsKeyByte, IsPlainNameOf};

use crate::wish::{LentBody, LentWish, Next};
use memchr::memchr;
use peer_head::{HEAD_LIMIT, HeadView};
use peer_path::Place;
use peer_source::GroupId;
use std::alloc::AllocError;
use std::marker::Model;

/// A head that asked for a key by plain bytes and did not close.
#[derive(Drop)]
pub(crate) struct LastHead {
    // Its block, and where its target begins, its key, and what follows its target.
    block: Vec<u8>,
    target: usize,
    key: usize,
    rest: usize,
    group: GroupId,
    bare: bool,
}

impl Model for LastHead {
    ghost use Rattle.peer_wish.specs.Lasts.{LastParts, last_parts, IsLastAt};

    ghost Value = { LastParts };

    ghost view = { λ a. last_parts a.block.items a.target a.key a.rest a.group a.bare };

    ghost invariant = { λ a. IsLastAt a.block.items a.target a.key a.rest a.group a.bare };
}

// `defaultBasePath` of groupcache's `http.go`.
const BASE_PATH: &[u8] = b"/_groupcache/";

impl LastHead {
    ghost use Rattle.std.specs.Prelude.{◌≡◌, ℕ, List, Option, Some, false, true, codes, nat_eq, IfOk, IfSome};
    ghost use Rattle.std.specs.List.{starts_with};
    ghost use Rattle.peer_head.specs.Blocks.{IsFrontLength};
    ghost use Rattle.peer_head.specs.Faults.{is_closing};
    ghost use Rattle.peer_head.specs.Looks.{ShowsHead};
    ghost use Rattle.peer_wish.specs.Wishes.{is_served};
    ghost use Rattle.peer_wish.specs.Lasts.{KnowsGroup, IsPlainNameOf};
    ghost use Rattle.peer_wish.specs.Nexts.{IsNextOf};

    /// The head at the front of the bytes held, whose block takes `len` of them, for a group of that name. Its bytes are
    /// copied into the room.
    pub(crate) fn of(
        room: Vec<u8>,
        held: &[u8],
        len: usize,
        head: &HeadView<'_>,
        name: &[u8],
        group: GroupId,
    ) -> Result<LastHead, AllocError>
        requires shows { ShowsHead held.now head.now }
        requires front { IsFrontLength held.now len }
        requires first { starts_with nat_eq held.now (codes "\r") ≡ false }
        requires stays { is_closing head.now ≡ false }
        requires served { is_served head.now.method ≡ true }
        requires named { IsPlainNameOf head.now.target name.now }
        ensures name { IfOk result (λ last. last.name ≡ name.now) }
        ensures group { IfOk result (λ last. last.group ≡ group) }
    {
        let target = head.method().len() + 1;
        let key = target + BASE_PATH.len() + name.len() + 1;
        let rest = target + head.target().len();
        let block = copy_into(room, &held[..len])?;
        Ok(LastHead {
            block,
            target,
            key,
            rest,
            group,
            bare: head.is_bare(),
        })
    }

    /// The room of its bytes, for those of another head.
    pub(crate) fn into_room(self) -> Vec<u8> {
        let LastHead {
            block,
            target: _,
            key: _,
            rest: _,
            group: _,
            bare: _,
        } = self;
        block
    }

    /// The next wish of the bytes held, where they begin with the same head around a key of plain bytes: what a look at them
    /// would tell.
    pub(crate) fn again<'h>(&self, held: &'h [u8]) -> Option<Next<LentWish<'h>>>
        ensures { (numbers : List ℕ → Option ℕ) → KnowsGroup numbers self.now
            → IfSome result (λ next. IsNextOf numbers held.now (Some next)) }
    {
        let behind = held.strip_prefix(&self.block[..self.key])?;
        let after = &self.block[self.rest..];
        let len = memchr(b' ', behind)?;
        if !behind[len..].starts_with(after) {
            return None;
        }
        if !are_key_bytes(&behind[..len]) {
            return None;
        }
        let end = self.key + len + after.len();
        if end > HEAD_LIMIT {
            return None;
        }
        let place = Place::cut_at(
            &held[self.target..self.key + len],
            self.key - self.target - 1,
        );
        let wish = LentWish {
            body: LentBody::Get(self.group, place),
            closing: false,
            bare: self.bare,
        };
        Some(Next { wish, len: end })
    }
}

// The bytes, in this room where they fit.
fn copy_into(room: Vec<u8>, bytes: &[u8]) -> Result<Vec<u8>, AllocError>
    ensures { IfOk result (λ copy. copy.items ≡ bytes.now) }
{
    let mut copy = room;
    copy.clear();
    copy.extend_from_slice(bytes)?;
    Ok(copy)
}

/// The name of the group in a target that begins with the base path, the name in plain bytes and a `/`.
pub(crate) fn plain_name(target: &[u8]) -> Option<&[u8]>
    ensures { IfSome result (λ name. IsPlainNameOf target.now name.now) }
{
    let below = target.strip_prefix(BASE_PATH)?;
    let len = name_len(below);
    if len < below.len() && below[len] == b'/' {
        Some(&below[..len])
    } else {
        None
    }
}

// How many bytes at the front may be of a name that stands for itself.
fn name_len(bytes: &[u8]) -> usize
    ensures within { result ≤ length bytes.now }
    ensures plain { All IsPlainInName (take result bytes.now) }
{
    let mut len = 0;
    while len < bytes.len() && is_name_byte(bytes[len]) {
        len += 1;
    }
    len
}

// Whether a byte of a name stands for itself.
fn is_name_byte(b: u8) -> bool
    ensures { IsTrue result ↔ IsPlainInName b }
{
    b != b'?' && b != b'%' && b != b'/'
}

// Whether each byte of a key stands for itself, with no early way out, so that a compiler may look at many at once.
fn are_key_bytes(bytes: &[u8]) -> bool
    ensures { IsTrue result → All IsKeyByte bytes.now }
{
    let mut plain = true;
    for b in bytes {
        plain = plain & is_key_byte(*b);
    }
    plain
}

// Whether a byte of a key stands for itself.
fn is_key_byte(b: u8) -> bool
    ensures { IsTrue result ↔ IsKeyByte b }
{
    b.is_ascii_graphic() & (b != b'?') & (b != b'%')
}
