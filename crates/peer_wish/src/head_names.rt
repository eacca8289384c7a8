//! The names of the groups that the heads of one connection ask for.
//!
//! It stands on the names of `peer_source` and the last head. It promises the next wish of the bytes held, as a parse of
//! them would tell it, and it parses no head that is like the last one but for the key.
ghost use Rattle.std.specs.Prelude.{◌≡◌, ℕ, List, Option, None, Some, IfSome, codes, false, nat_eq, true};
ghost use Rattle.std.specs.Bool.{OnTrue};
ghost use Rattle.std.specs.List.{starts_with};
ghost use Rattle.peer_head.specs.Faults.{is_closing};
ghost use Rattle.peer_wish.specs.Lasts.{KnowsGroup};
ghost use Rattle.peer_wish.specs.Nexts.{IsNextOf};
ghost use Rattle.peer_wish.specs.Wishes.{is_served};

use crate::last_head::{LastHead, plain_name};
use crate::wish::{LentWish, Next, is_served, wish_seen};
use memchr::memchr2;
use peer_head::{FieldPlaces, HeadView, Look, look_held};
use peer_source::{Names, Source};
use std::alloc::{AllocError, Global};
use std::marker::Model;

// A longer head is parsed each time: so much memory each connection may keep.
const MAX_KEPT: usize = 512;

/// Tells the groups of a source, and what the next head asks for. Contracts see the source.
#[derive(Drop)]
pub struct HeadNames<'n, S: Source> {
    names: Names<'n, S>,
    last: Option<LastHead>,
    // How many heads in a row were not like the one remembered.
    unlike: u32,
}

impl<'n, S: Source> Model for HeadNames<'n, S> {
    ghost use Rattle.std.specs.Prelude.{IfSome};
    ghost use Rattle.peer_wish.specs.Lasts.{KnowsGroup};

    ghost Value = { S };

    ghost view = { λ h. h.names };

    ghost invariant = { λ h. IfSome h.last (KnowsGroup (S.number_of h.names)) };
}

impl<'n, S: Source> HeadNames<'n, S> {
    ghost use Rattle.std.specs.Prelude.{◌≡◌, IfOk};
    ghost use Rattle.peer_head.specs.Blocks.{IsFrontLength};
    ghost use Rattle.peer_head.specs.Looks.{LooksAs};
    ghost use Rattle.peer_wish.specs.Nexts.{IsNextOf};

    /// No head came. It takes no memory yet.
    pub fn new(names: Names<'n, S>) -> HeadNames<'n, S>
        ensures { result ≡ names.entry }
    {
        HeadNames {
            names,
            last: None,
            unlike: 0,
        }
    }

    /// `next_wish`, of the heads of one connection in turn.
    pub fn next_wish<'h>(
        &mut self,
        alloc: Global,
        held: &'h [u8],
        places: &'h mut FieldPlaces,
    ) -> Result<Option<Next<LentWish<'h>>>, AllocError>
        ensures next { IfOk result (λ next. IsNextOf (S.number_of self.old) held.now next) }
        ensures names { self.new ≡ self.old }
    {
        if let Some(next) = same_as(&self.last, held) {
            self.unlike = 0;
            return Ok(Some(next));
        }
        let (look, len) = look_held(held, places);
        self.remember(alloc, held, &look, len);
        wish_seen(alloc, &self.names, look, len)
    }

    // Remembers the head at the front of bytes that look so, whose block takes `len` of them, if the same head may ask for
    // other keys. Of heads that are all unlike it copies the first, the second, the fourth and so on, since copies cost time.
    // If memory is refused none is remembered.
    fn remember(&mut self, alloc: Global, held: &[u8], look: &Look<'_>, len: usize)
        requires look { LooksAs held.now look.now }
        requires front { IsFrontLength held.now len }
        ensures { self.new ≡ self.old }
    {
        let Look::Head(head) = look else {
            return;
        };
        self.unlike = self.unlike.saturating_add(1);
        if !self.unlike.is_power_of_two() || !is_kept(held, len, head) {
            return;
        }
        let Some(name) = plain_name(head.target()) else {
            return;
        };
        let Some(group) = self.names.group(name) else {
            return;
        };
        let room = take_room(&mut self.last, alloc);
        if let Ok(last) = LastHead::of(room, held, len, head, name, group) {
            self.last = Some(last);
        }
    }
}

// What the bytes held ask for if they begin with the last head around a key of plain bytes.
fn same_as<'h>(last: &Option<LastHead>, held: &'h [u8]) -> Option<Next<LentWish<'h>>>
    ensures { (numbers : List ℕ → Option ℕ) → IfSome last.now (KnowsGroup numbers)
        → IfSome result (λ next. IsNextOf numbers held.now (Some next)) }
{
    match last {
        Some(last) => last.again(held),
        None => None,
    }
}

// The room of the last head, which is forgotten.
fn take_room(last: &mut Option<LastHead>, alloc: Global) -> Vec<u8>
    ensures { last.new ≡ None }
{
    match last.take() {
        Some(last) => last.into_room(),
        None => Vec::new(alloc),
    }
}

// Whether a head may be remembered: it is short, goes on, asks for a value by plain bytes, and no pair stands before it.
fn is_kept(held: &[u8], len: usize, head: &HeadView<'_>) -> bool
    ensures first { OnTrue result (starts_with nat_eq held.now (codes "\r") ≡ false) }
    ensures stays { OnTrue result (is_closing head.now ≡ false) }
    ensures served { OnTrue result (is_served head.now.method ≡ true) }
{
    if len > MAX_KEPT || held.starts_with(b"\r") || head.is_closing() || !is_served(head) {
        return false;
    }
    memchr2(b'?', b'%', head.target()).is_none()
}
