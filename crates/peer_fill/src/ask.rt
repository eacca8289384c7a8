//! How connections ask: a claim on a value that is kept, or on a flight, which is joined or led.
//!
//! It stands on the caches, the flights of `peer_flight` and the queue of jobs. It promises that a claim is of the group and
//! the key that were asked for, that one which is ready shows a value that was found for them, and that it is counted once.
ghost use Rattle.std.specs.Prelude.{◌≡◌, ◌+◌, ◌<◌, ◌^◌, ◌↔◌, Err, None, IfNone, IfOk, IfSome, IsErrOf, IsSome};
ghost use Rattle.std.specs.Prelude.{OnErr, OnOk};
ghost use Rattle.peer_flight.specs.SingleFlight.{place_of};
ghost use Rattle.peer_fill.specs.Seats.{asks_of, left_of, IsUnchanged};

use crate::counts::Found;
use crate::jobs::Job;
use crate::pool::Pool;
use crate::seats::{ConnSeat, MAX_COUNT};
use peer_flight::{Ask, AskFault, Claim};
use peer_source::{Fill, GroupId, Source};
use peer_view::ByteView;
use peer_wait::lock;
use std::alloc::Global;
use std::sync::Wait;
use std::sync::ledger::Ledger;

impl<S: Source, L: Ledger> ConnSeat<S, L> {
    ghost use Rattle.std.specs.Prelude.{option_map};
    ghost use Rattle.peer_fill.specs.Claiming.{GivesClaim};
    ghost use Rattle.peer_fill.specs.Seats.{IsSameConn};
    ghost use Rattle.peer_fill.specs.Caches.{IsFoundFor};
    ghost use Rattle.peer_flight.specs.declared.claim.Claim.TheVariants.{Ready};

    // A claim on a value that caches keep for the group and the key, if they keep one.
    fn claim_kept(&mut self, group: GroupId, key: &[u8], kept: Option<Fill<S>>) -> Option<Claim<S>>
        requires most { (asks_of self.old).asked < 2 ^ 56 }
        requires kept { IfSome kept (IsFoundFor group.number key.now) }
        ensures own { result ≡ option_map Ready kept }
        ensures some { IfSome result (GivesClaim (place_of group.number key.now) (asks_of self.old) (asks_of self.new)) }
        ensures none { IfNone result (asks_of self.new ≡ asks_of self.old) }
        ensures seat { IsSameConn self.old self.new }
        ensures left { left_of self.new ≡ left_of self.old }
    {
        let fill = kept?;
        self.groups.note_hit(group);
        self.count(Found::Value);
        Some(Claim::Ready(fill))
    }
}

impl<S: Source, L: Ledger> Pool<S, L> {
    ghost use Rattle.peer_fill.specs.Claiming.{GivesClaim, KeepsSeat, MayGive};
    ghost use Rattle.peer_fill.specs.Pools.{source_of, IsConnSeatOf};

    /// The first half of `ask`: a claim on the value that the group's cache keeps for the key, where it keeps one. `want`
    /// is the other half, and other threads may fill the key between the two.
    ///
    /// `Worn`: the seat has asked 2^56 times. `Memory`: memory was refused.
    pub fn hit<R: Wait>(
        &self,
        rt: &R,
        seat: &mut ConnSeat<S, L>,
        group: GroupId,
        key: &[u8],
    ) -> Result<Option<Claim<S>>, AskFault>
        requires seat { IsConnSeatOf self.now seat.old }
        ensures seat { KeepsSeat self.now seat.old seat.new }
        ensures left { left_of seat.new ≡ left_of seat.old }
        ensures most { OnOk result ((asks_of seat.old).asked < 2 ^ 56) }
        ensures worn { IsErrOf result AskFault.Worn ↔ ((asks_of seat.old).asked ≡ 2 ^ 56) }
        ensures claim { IfOk result (λ found. IfSome found
            (GivesClaim (place_of group.number key.now) (asks_of seat.old) (asks_of seat.new))) }
        ensures none { IfOk result (λ found. IfNone found (asks_of seat.new ≡ asks_of seat.old)) }
        ensures refused { OnErr result (asks_of seat.new ≡ asks_of seat.old) }
    {
        if seat.asks.asked >= MAX_COUNT {
            return Err(AskFault::Worn);
        }
        let kept = self.caches.get(rt, group, key)?;
        Ok(seat.claim_kept(group, key, kept))
    }

    // Joins the open flight of the group and the key, or leads one, whose job is left with the seat where the queue is
    // full.
    fn join_or_lead<R: Wait>(
        &self,
        rt: &R,
        alloc: Global,
        seat: &mut ConnSeat<S, L>,
        group: GroupId,
        key: ByteView,
    ) -> Result<Claim<S>, AskFault>
        requires seat { IsConnSeatOf self.now seat.old }
        requires most { (asks_of seat.old).asked < 2 ^ 56 }
        requires none { left_of seat.old ≡ None }
        ensures seat { KeepsSeat self.now seat.old seat.new }
        ensures claim { IfOk result (GivesClaim (place_of group.number key) (asks_of seat.old) (asks_of seat.new)) }
        ensures refused { OnErr result (asks_of seat.new ≡ asks_of seat.old) }
    {
        let ask = lock(rt, &self.table).want(alloc, group, &key, &mut seat.share);
        match ask {
            Err(fault) => Err(fault),
            Ok(Ask::Joined(flight)) => {
                seat.groups.note_joined(group);
                seat.count(Found::Flight);
                Ok(Claim::Pending(flight))
            }
            Ok(Ask::Led(flight, right)) => {
                seat.groups.note_led(group);
                seat.left = self.push(rt, &mut seat.pass, Job { right, key });
                seat.asks.asked += 1;
                seat.asks.led += 1;
                Ok(Claim::Pending(flight))
            }
        }
    }

    // Joins the open flight of the group and the key, where there is one.
    fn join<R: Wait>(
        &self,
        rt: &R,
        seat: &mut ConnSeat<S, L>,
        group: GroupId,
        key: &ByteView,
    ) -> Result<Option<Claim<S>>, AskFault>
        requires seat { IsConnSeatOf self.now seat.old }
        requires most { (asks_of seat.old).asked < 2 ^ 56 }
        ensures seat { KeepsSeat self.now seat.old seat.new }
        ensures left { left_of seat.new ≡ left_of seat.old }
        ensures gives { MayGive (place_of group.number key.now) (asks_of seat.old) (asks_of seat.new) result }
    {
        let found = lock(rt, &self.table).join(group, key)?;
        let Some(flight) = found else {
            return Ok(None);
        };
        seat.groups.note_joined(group);
        seat.count(Found::Flight);
        Ok(Some(Claim::Pending(flight)))
    }

    /// The second half of `ask`: a claim on the open flight of this group and key, which is joined, or led where there is
    /// none. It waits while the queue of jobs is full.
    ///
    /// `Worn`: the table refuses. `Memory`: memory was refused.
    pub fn want<R: Wait>(
        &self,
        rt: &R,
        alloc: Global,
        seat: &mut ConnSeat<S, L>,
        group: GroupId,
        key: ByteView,
    ) -> Result<Claim<S>, AskFault>
        requires seat { IsConnSeatOf self.now seat.old }
        requires most { (asks_of seat.old).asked < 2 ^ 56 }
        ensures seat { KeepsSeat self.now seat.old seat.new }
        ensures claim { IfOk result (GivesClaim (place_of group.number key) (asks_of seat.old) (asks_of seat.new)) }
        ensures put { OnOk result (left_of seat.new ≡ None) }
        ensures refused { OnErr result (asks_of seat.new ≡ asks_of seat.old) }
    {
        self.put_all(rt, seat);
        let claim = self.join_or_lead(rt, alloc, seat, group, key)?;
        self.put_all(rt, seat);
        Ok(claim)
    }

    /// A claim on the fill of this group and key: it is there where the group's cache keeps a value for the key, and
    /// else their open flight is joined, or one is led. It waits while the queue of jobs is full.
    ///
    /// `Worn`: the seat has asked 2^56 times, or the table refuses. `Memory`: memory was refused.
    pub fn ask<R: Wait>(
        &self,
        rt: &R,
        alloc: Global,
        seat: &mut ConnSeat<S, L>,
        group: GroupId,
        key: ByteView,
    ) -> Result<Claim<S>, AskFault>
        requires seat { IsConnSeatOf self.now seat.old }
        requires group { group.number < S.count (source_of self.now) }
        ensures seat { KeepsSeat self.now seat.old seat.new }
        ensures claim { IfOk result (GivesClaim (place_of group.number key) (asks_of seat.old) (asks_of seat.new)) }
        ensures put { left_of seat.old ≡ None → OnOk result (left_of seat.new ≡ None) }
        ensures refused { OnErr result (asks_of seat.new ≡ asks_of seat.old) }
        ensures worn { (asks_of seat.old).asked ≡ 2 ^ 56 → result ≡ Err AskFault.Worn }
    {
        let found = self.hit(rt, seat, group, key.as_slice())?;
        if let Some(claim) = found {
            return Ok(claim);
        }
        self.want(rt, alloc, seat, group, key)
    }

    /// As `ask`, but it never waits for room in the queue of jobs: where that is full, the job of a flight that was led is
    /// left with the seat. While one is left and the queue is full, only a value that is kept and an open flight are
    /// claimed. Where a flight would have to be led, it gives none, and nothing changed: ask again once `put_left` has put
    /// the job.
    ///
    /// `Worn`: the seat has asked 2^56 times, or the table refuses. `Memory`: memory was refused.
    pub fn ask_now<R: Wait>(
        &self,
        rt: &R,
        alloc: Global,
        seat: &mut ConnSeat<S, L>,
        group: GroupId,
        key: &[u8],
    ) -> Result<Option<Claim<S>>, AskFault>
        requires seat { IsConnSeatOf self.now seat.old }
        requires group { group.number < S.count (source_of self.now) }
        ensures seat { KeepsSeat self.now seat.old seat.new }
        ensures claim { IfOk result (λ asked. IfSome asked
            (GivesClaim (place_of group.number key.now) (asks_of seat.old) (asks_of seat.new))) }
        ensures not_now { IfOk result (λ asked. IfNone asked (IsUnchanged seat.old seat.new × IsSome (left_of seat.old))) }
        ensures refused { OnErr result (asks_of seat.new ≡ asks_of seat.old) }
        ensures worn { (asks_of seat.old).asked ≡ 2 ^ 56 → result ≡ Err AskFault.Worn }
    {
        let found = self.hit(rt, seat, group, key)?;
        if let Some(claim) = found {
            return Ok(Some(claim));
        }
        let key = ByteView::copy_of(alloc, key)?;
        if !self.put_left(rt, seat) {
            return self.join(rt, seat, group, &key);
        }
        let claim = self.join_or_lead(rt, alloc, seat, group, key)?;
        Ok(Some(claim))
    }
}
