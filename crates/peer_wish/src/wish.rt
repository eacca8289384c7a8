//! What a request asks for.
//!
//! It stands on the heads of `peer_head`, the places of `peer_path` and the names of `peer_source`. It promises the wish
//! of a head: its first fault, or the group and the key that it asks for. A wish lends its key from the head, so that who
//! needs no copy makes none.
ghost use Rattle.std.specs.Prelude.{true, ◌≡◌, ℕ, ◌<◌, List, IfOk};
ghost use Rattle.peer_flight.specs.Events.{REPLIES};
ghost use Rattle.peer_head.specs.Blocks.{IsFrontLength};
ghost use Rattle.peer_head.specs.Looks.{LooksAs};
ghost use Rattle.peer_wish.specs.Wishes.{head_wish, head_body, target_body, in_group, fault_of, is_served, closes_after};
ghost use Rattle.peer_wish.specs.LentWishes.{lent_body};
ghost use Rattle.peer_wish.specs.Nexts.{IsNextOf};

use peer_head::{FieldPlaces, HeadFault, HeadView, Look, look_held};
use peer_path::{PathFault, Place, locate};
use peer_reply::{Fault, Wish, WishBody};
use peer_source::{GroupId, Names, Source};
use peer_view::ByteView;
use std::alloc::{AllocError, Global};
use std::marker::Model;

/// How many replies a connection gets at most. The last of them closes.
pub const MAX_REPLIES: u64 = 10_000;

/// A `WishBody` whose key is lent.
#[derive(Drop)]
pub enum LentBody<'h> {
    Fault(Fault),
    Get(GroupId, Place<'h>),
}

/// A `Wish` whose key is lent from the head, or from a buffer of its own where the target has an escape.
#[derive(Drop)]
pub struct LentWish<'h> {
    pub body: LentBody<'h>,
    pub closing: bool,
    pub bare: bool,
}

impl<'h> Model for LentWish<'h> {
    ghost use Rattle.peer_reply.specs.declared.wish.Wish.{Wish};
    ghost use Rattle.peer_wish.specs.LentWishes.{lent_body};

    ghost Value = { Wish };

    ghost view = { λ w. record { body = lent_body w.body; closing = w.closing; bare = w.bare } };
}

impl<'h> LentWish<'h> {
    // The same wish, with a copy of the key.
    fn kept(self, alloc: Global) -> Result<Wish, AllocError>
        ensures { IfOk result (λ w. w ≡ self.entry) }
    {
        let LentWish {
            body,
            closing,
            bare,
        } = self;
        let body = match body {
            LentBody::Fault(fault) => WishBody::Fault(fault),
            LentBody::Get(group, place) => {
                WishBody::Get(group, ByteView::copy_of(alloc, place.key())?)
            }
        };
        Ok(Wish {
            body,
            closing,
            bare,
        })
    }
}

/// What a head asks for that has no fault of its own: its method, its place and its group, in this order.
pub fn wish_of<S: Source>(
    alloc: Global,
    names: &Names<'_, S>,
    head: &HeadView<'_>,
) -> Result<Wish, AllocError>
    ensures { IfOk result (λ w. w ≡ head_wish (S.number_of names.now) head.now) }
{
    lent_wish_of(alloc, names, head)?.kept(alloc)
}

// `wish_of`, with a key that is lent.
fn lent_wish_of<'h, S: Source>(
    alloc: Global,
    names: &Names<'_, S>,
    head: &HeadView<'h>,
) -> Result<LentWish<'h>, AllocError>
    ensures { IfOk result (λ w. w ≡ head_wish (S.number_of names.now) head.now) }
{
    Ok(LentWish {
        body: head_body(alloc, names, head)?,
        closing: head.is_closing(),
        bare: head.is_bare(),
    })
}

// What a head asks for, by its method and target.
fn head_body<'h, S: Source>(
    alloc: Global,
    names: &Names<'_, S>,
    head: &HeadView<'h>,
) -> Result<LentBody<'h>, AllocError>
    ensures { IfOk result (λ b. lent_body b ≡ head_body (S.number_of names.now) head.now) }
{
    if is_served(head) {
        target_body(alloc, names, head.target())
    } else {
        Ok(LentBody::Fault(Fault::Method))
    }
}

// Whether requests of its method are answered.
pub(crate) fn is_served(head: &HeadView<'_>) -> bool
    ensures { result ≡ is_served head.now.method }
{
    head.method() == b"GET".as_slice() || head.is_bare()
}

// What a target asks for.
fn target_body<'h, S: Source>(
    alloc: Global,
    names: &Names<'_, S>,
    target: &'h [u8],
) -> Result<LentBody<'h>, AllocError>
    ensures { IfOk result (λ b. lent_body b ≡ target_body (S.number_of names.now) target.now) }
{
    match locate(alloc, target) {
        Ok(place) => group_body(alloc, names, place),
        Err(PathFault::Target) => Ok(LentBody::Fault(Fault::Target)),
        Err(PathFault::Escape) => Ok(LentBody::Fault(Fault::Escape)),
        Err(PathFault::Outside) => Ok(LentBody::Fault(Fault::Outside)),
        Err(PathFault::NoKey) => Ok(LentBody::Fault(Fault::NoKey)),
        Err(PathFault::Memory) => Err(AllocError),
    }
}

// What a place asks for.
fn group_body<'h, S: Source>(
    alloc: Global,
    names: &Names<'_, S>,
    place: Place<'h>,
) -> Result<LentBody<'h>, AllocError>
    ensures { IfOk result (λ b. lent_body b ≡ in_group (S.number_of names.now place.entry.group) place.entry.group place.entry.key) }
{
    let name = place.group();
    match names.group(name) {
        Some(group) => Ok(LentBody::Get(group, place)),
        None => Ok(LentBody::Fault(Fault::NoGroup(ByteView::copy_of(alloc, name)?))),
    }
}

// A fault of a head, as a fault of a request.
fn fault_of(fault: HeadFault) -> Fault
    ensures { result ≡ fault_of fault }
{
    match fault {
        HeadFault::TooLong => Fault::TooLong,
        HeadFault::NotAHead => Fault::NotAHead,
        HeadFault::TransferCoding => Fault::TransferCoding,
        HeadFault::BadLength => Fault::BadLength,
        HeadFault::Content => Fault::Content,
        HeadFault::Host => Fault::Host,
    }
}

/// A wish, and how many of the bytes held its block takes with the pairs before it.
#[derive(Drop)]
pub struct Next<W> {
    pub wish: W,
    pub len: usize,
}

/// The next wish of the bytes held, none where they are unfinished.
pub fn next_wish<'h, S: Source>(
    alloc: Global,
    names: &Names<'_, S>,
    held: &'h [u8],
    places: &'h mut FieldPlaces,
) -> Result<Option<Next<LentWish<'h>>>, AllocError>
    ensures { IfOk result (λ next. IsNextOf (S.number_of names.now) held.now next) }
{
    let (look, len) = look_held(held, places);
    wish_seen(alloc, names, look, len)
}

/// The next wish of bytes that look so, of which the first block takes `len` with the pairs before it.
pub(crate) fn wish_seen<'h, S: Source>(
    alloc: Global,
    names: &Names<'_, S>,
    look: Look<'h>,
    len: usize,
) -> Result<Option<Next<LentWish<'h>>>, AllocError>
    ensures { (held : List ℕ) → LooksAs held look.entry → IsFrontLength held len
        → IfOk result (λ next. IsNextOf (S.number_of names.now) held next) }
{
    match look {
        Look::Need => Ok(None),
        Look::Fault(fault, bare) => {
            let wish = LentWish {
                body: LentBody::Fault(fault_of(fault)),
                closing: true,
                bare,
            };
            Ok(Some(Next { wish, len }))
        }
        Look::Head(head) => {
            let wish = lent_wish_of(alloc, names, &head)?;
            Ok(Some(Next { wish, len }))
        }
    }
}

/// `next_wish`, with a copy of the key.
pub fn next_kept<S: Source>(
    alloc: Global,
    names: &Names<'_, S>,
    held: &[u8],
    places: &mut FieldPlaces,
) -> Result<Option<Next<Wish>>, AllocError>
    ensures { IfOk result (λ next. IsNextOf (S.number_of names.now) held.now next) }
{
    let Some(Next { wish, len }) = next_wish(alloc, names, held, places)? else {
        return Ok(None);
    };
    let wish = wish.kept(alloc)?;
    Ok(Some(Next { wish, len }))
}

/// Whether the reply to a wish closes, after `count` replies.
pub fn closes_after(count: u64, closing: bool) -> bool
    requires { count < REPLIES }
    ensures { result ≡ closes_after count closing }
{
    closing || count + 1 == MAX_REPLIES
}
