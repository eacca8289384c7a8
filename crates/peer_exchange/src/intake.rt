//! The bytes that came to a connection, and what the heads among them ask for.
//!
//! It stands on the heads of `peer_head` and the wishes of `peer_wish`. It promises the requests of the bytes that came,
//! each once, in order.
ghost use Rattle.std.specs.Prelude.{◌≡◌, ℕ, ◌<◌, ◌≤◌, length};
ghost use Rattle.peer_flight.specs.Events.{REPLIES};
ghost use Rattle.peer_head.specs.Blocks.{LIMIT};

use peer_head::{HEAD_LIMIT, are_pairs};
use peer_outbox::ByteQueue;
use peer_wish::closes_after;
use std::alloc::{AllocError, Global};
use std::cmp::min;

/// Why an exchange was given up.
#[derive(Clone, Copy, Debug, PartialEq, Eq)]
pub enum GivenUp {
    /// Memory was refused.
    Memory,
    /// The numbers of fills or asks were used up.
    Worn,
}

/// How far the bytes that come are judged.
#[derive(Clone, Copy, Debug)]
pub(crate) enum Stage {
    /// More bytes may come.
    Open,
    /// The client told its end. What is held is still to be judged.
    Told,
    /// The client told its end, and all whole heads were judged.
    Ended,
    /// A request closes. Nothing behind it is judged.
    Closed,
    GivenUp(GivenUp),
}

/// The bytes that came behind the requests that were given and do not close.
#[derive(Drop)]
pub(crate) struct Intake {
    pub(crate) alloc: Global,
    pub(crate) held: ByteQueue,
    /// How many requests were given that do not close.
    pub(crate) count: u64,
    pub(crate) stage: Stage,
    ghost open: { count < REPLIES },
    ghost within: { length held ≤ LIMIT },
}

impl Intake {
    ghost use Rattle.std.specs.Prelude.{◌≡◌, ℕ, ◌+◌, ◌-◌, ◌<◌, ◌≤◌, true, false, List, [], ◌++◌, length, min, take, Option, IfOk, OnErr};
    ghost use Rattle.peer_reply.specs.declared.wish.Wish.{Wish};
    ghost use Rattle.peer_wish.specs.Wishes.{closes_after};
    ghost use Rattle.peer_wish.specs.Nexts.{IsNextWish};
    ghost use Rattle.peer_exchange.specs.Intakes.{IsNewIntake, JudgesMore, JudgesFewer, JudgesNext, KeepsJudged};
    ghost use Rattle.peer_exchange.specs.Intakes.{IsGivenUpFor, is_open, is_judging, is_given_up, told, giving, needing};
    ghost use Rattle.peer_head.specs.Blocks.{IsFrontLength, IsUnfinished, LIMIT};
    ghost use Rattle.peer_head.specs.Pairs.{ArePairs};
    ghost use Rattle.std.specs.Prelude.{◌↔◌, IsTrue};

    /// It takes no memory yet.
    pub(crate) fn new(alloc: Global) -> Intake
        ensures { IsNewIntake result }
    {
        Intake {
            alloc,
            held: ByteQueue::new(alloc),
            count: 0,
            stage: Stage::Open,
        }
    }

    /// Whether more bytes may come.
    pub(crate) fn is_open(&self) -> bool
        ensures { result ≡ is_open self.now.stage }
    {
        matches!(self.stage, Stage::Open)
    }

    /// Whether what is held is judged.
    pub(crate) fn is_judging(&self) -> bool
        ensures { result ≡ is_judging self.now.stage }
    {
        matches!(self.stage, Stage::Open | Stage::Told)
    }

    /// How many bytes have room behind those held.
    pub(crate) fn room(&self) -> usize
        ensures { result ≡ LIMIT - length self.now.held }
    {
        HEAD_LIMIT - self.held.len()
    }

    /// Whether what is held is pairs CR LF alone, which may stand before a head (RFC 9112, section 2.2).
    pub(crate) fn holds_only_pairs(&self) -> bool
        ensures { IsTrue result ↔ ArePairs self.now.held }
    {
        are_pairs(self.held.as_slice())
    }

    /// As many of the bytes come as there is room for. How many; none where memory is refused.
    pub(crate) fn receive(&mut self, bytes: &[u8]) -> Result<usize, AllocError>
        requires { is_open self.old.stage ≡ true }
        ensures count { IfOk result (λ n. n ≡ min (length bytes.now) (LIMIT - length self.old.held)) }
        ensures came { IfOk result (λ n. JudgesMore self.old self.new (take n bytes.now)) }
        ensures stage { self.new.stage ≡ self.old.stage }
        ensures refused { OnErr result (self.new ≡ self.old) }
    {
        let n = min(bytes.len(), self.room());
        match self.held.push(&bytes[..n]) {
            Ok(()) => Ok(n),
            Err(fault) => Err(fault),
        }
    }

    /// The client told its end.
    pub(crate) fn end(&mut self)
        ensures stage { self.new.stage ≡ told self.old.stage }
        ensures held { self.new.held ≡ self.old.held }
        ensures count { self.new.count ≡ self.old.count }
    {
        if self.is_open() {
            self.stage = Stage::Told;
        }
    }

    /// Gives up: the last wishes that were judged may be dropped.
    pub(crate) fn give_up(&mut self, why: GivenUp)
        ensures stage { IsGivenUpFor self.new.stage why }
        ensures first { JudgesFewer self.old self.new }
    {
        self.stage = Stage::GivenUp(why);
    }

    /// Whether the reply to the next request closes. The last that a connection gets does.
    pub(crate) fn closes(&self, closing: bool) -> bool
        ensures { result ≡ closes_after self.now.count closing }
    {
        closes_after(self.count, closing)
    }

    /// The next request was given, whose block takes `len` bytes. Nothing behind one that closes is judged.
    pub(crate) fn give(&mut self, len: usize, closing: bool)
        requires judging { is_judging self.old.stage ≡ true }
        requires within { closing ≡ false → len ≤ length self.old.held }
        requires count { closing ≡ false → self.old.count + 1 < REPLIES }
        ensures judges { JudgesNext self.old self.new len closing }
        ensures goes_on { is_given_up self.new.stage ≡ false }
        ensures stage { self.new.stage ≡ giving closing self.old.stage }
    {
        if closing {
            self.stage = Stage::Closed;
        } else {
            self.held.drop_front(len);
            self.count += 1;
        }
    }

    /// What is held is unfinished: where no more bytes come, all whole heads were judged.
    pub(crate) fn need(&mut self)
        requires { IsUnfinished self.old.held }
        ensures keeps { (numbers : List ℕ → Option ℕ) → KeepsJudged numbers self.old self.new }
        ensures stage { self.new.stage ≡ needing self.old.stage }
        ensures held { self.new.held ≡ self.old.held }
    {
        if let Stage::Told = self.stage {
            self.stage = Stage::Ended;
        }
    }
}
