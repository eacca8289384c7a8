//! Seats: what a connection and a worker need of a pool, and what they counted.
ghost use Rattle.std.specs.Prelude.{◌≡◌, ℕ, ◌+◌, ◌^◌, ◌≤◌, ◌<◌, ◌↔◌, [], length, min, None, IsSome, IsTrue};
ghost use Rattle.crossbeam_queue.specs.Passes.{view};
ghost use Rattle.peer_fill.specs.Counts.{no_asks, no_fills, taken_of};
ghost use Rattle.peer_fill.specs.Jobs.{pass_log, left_count, Rises};

use crate::counts::{AskCounts, FillCounts, Found};
use crate::group_asks::{AsksByGroup, AsksOfGroup};
use crate::jobs::{Job, PassLog};
use crossbeam_queue::Pass;
use peer_source::{Evicted, Source};
use std::marker::PhantomData;
use std::sync::ledger::{Ledger, Share};

/// No seat counts further.
pub(crate) const MAX_COUNT: u64 = 1 << 56;

/// The seat of who asks: of one connection at a time, or of all that an event loop serves.
#[derive(Drop)]
pub struct ConnSeat<S: Source, L: Ledger> {
    pub(crate) pass: Pass<Job<S>, PassLog>,
    pub(crate) share: Share<L>,
    pub(crate) parts: u64,
    pub(crate) asks: AskCounts,
    pub(crate) groups: AsksByGroup,
    // The job of a flight that it led, until the queue has room for it.
    pub(crate) left: Option<Job<S>>,
    ghost has_parts: { (0 < parts) × (parts ≤ 16) },
    ghost pass_parts: { (view pass).parts ≡ parts },
    ghost share_parts: { share.parts ≡ parts },
    ghost pushed: { length (view pass).pushed + left_count left ≡ asks.led },
    ghost popped: { (view pass).popped ≡ [] },
    ghost in_order: { Rises (view pass).pushed },
    ghost share_led: { share.amount ≡ asks.led },
    ghost each_ask: { asks.asked ≡ asks.hits + asks.led + asks.joined },
    ghost most_asked: { asks.asked ≤ 2 ^ 56 },
    ghost most_strangers: { asks.strangers ≤ 2 ^ 56 },
}

/// The seat of who fills: a worker, a thread that fetches, or an event loop.
#[derive(Drop)]
pub struct FillSeat<S: Source, L: Ledger> {
    pub(crate) pass: Pass<Job<S>, PassLog>,
    pub(crate) of: PhantomData<L>,
    pub(crate) parts: u64,
    pub(crate) fills: FillCounts,
    // Where what left a cache is put until the cache is unlocked.
    pub(crate) evicted: Evicted,
    ghost has_parts: { (0 < parts) × (parts ≤ 16) },
    ghost pass_parts: { (view pass).parts ≡ parts },
    ghost pushed: { (view pass).pushed ≡ [] },
    ghost popped: { length (view pass).popped ≡ fills.calls + fills.rehits },
    ghost in_order: { Rises (view pass).popped },
    ghost most: { fills.calls + fills.rehits ≤ 2 ^ 56 },
    ghost none_evicted: { evicted.items ≡ [] },
}

impl<S: Source, L: Ledger> ConnSeat<S, L> {
    ghost use Rattle.peer_fill.specs.Seats.{asks_of, conn_parts, left_of, IsSameConn};
    ghost use Rattle.peer_fill.specs.Counts.{with_found};

    /// A seat that has asked nothing.
    pub(crate) fn new(pass: Pass<Job<S>, PassLog>, share: Share<L>, parts: u64) -> ConnSeat<S, L>
        requires parts { (0 < parts) × (parts ≤ 16) }
        requires pass { view pass ≡ pass_log parts [] [] }
        requires share { (share.parts ≡ parts) × (share.amount ≡ 0) }
        ensures pass { result.pass ≡ pass }
        ensures parts { conn_parts result ≡ parts }
        ensures counts { asks_of result ≡ no_asks }
        ensures left { left_of result ≡ None }
    {
        ConnSeat {
            pass,
            share,
            parts,
            asks: AskCounts::none(),
            groups: AsksByGroup::none(),
            left: None,
        }
    }

    /// Whether the job of a flight that it led is left with it, since the queue of jobs was full. The flight is open, and
    /// no worker sees its job before `Pool::put_left` has put it.
    pub fn has_left(&self) -> bool
        ensures { IsTrue result ↔ IsSome (left_of self.now) }
    {
        self.left.is_some()
    }

    /// The claims that it was given.
    pub fn asked(&self) -> u64
        ensures { result ≡ (asks_of self.now).asked }
    {
        self.asks.asked
    }

    /// The claims that were ready.
    pub fn hits(&self) -> u64
        ensures { result ≡ (asks_of self.now).hits }
    {
        self.asks.hits
    }

    /// The flights that it led.
    pub fn led(&self) -> u64
        ensures { result ≡ (asks_of self.now).led }
    {
        self.asks.led
    }

    /// The flights that it joined.
    pub fn joined(&self) -> u64
        ensures { result ≡ (asks_of self.now).joined }
    {
        self.asks.joined
    }

    /// The fills that came for another group or key than was asked for.
    pub fn strangers(&self) -> u64
        ensures { result ≡ (asks_of self.now).strangers }
    {
        self.asks.strangers
    }

    /// The next group that it asked for since what it asked of that was told, with all that it asked of it.
    pub fn next_untold(&mut self) -> Option<AsksOfGroup>
        ensures counts { asks_of self.new ≡ asks_of self.old }
        ensures seat { IsSameConn self.old self.new }
        ensures left { left_of self.new ≡ left_of self.old }
    {
        self.groups.next_untold()
    }

    /// Counts an ask that found this.
    pub(crate) fn count(&mut self, found: Found)
        requires { (asks_of self.old).asked < 2 ^ 56 }
        ensures counts { asks_of self.new ≡ with_found found (asks_of self.old) }
        ensures seat { IsSameConn self.old self.new }
        ensures left { left_of self.new ≡ left_of self.old }
    {
        self.asks.count(found);
    }

    /// Raises the strangers, to 2^56 at most.
    pub fn add_strangers(&mut self, n: u64)
        ensures counts { asks_of self.new ≡ record (asks_of self.old) { strangers = min ((asks_of self.old).strangers + n) (2 ^ 56) } }
        ensures seat { IsSameConn self.old self.new }
        ensures left { left_of self.new ≡ left_of self.old }
    {
        let strangers = &mut self.asks.strangers;
        if n <= MAX_COUNT - *strangers {
            *strangers += n;
        } else {
            *strangers = MAX_COUNT;
        }
    }
}

impl<S: Source, L: Ledger> FillSeat<S, L> {
    ghost use Rattle.peer_fill.specs.Seats.{fills_of, fill_parts};

    /// A seat that has taken no job. The list is for what leaves a cache.
    pub(crate) fn new(pass: Pass<Job<S>, PassLog>, parts: u64, evicted: Evicted) -> FillSeat<S, L>
        requires parts { (0 < parts) × (parts ≤ 16) }
        requires pass { view pass ≡ pass_log parts [] [] }
        requires evicted { evicted.items ≡ [] }
        ensures pass { result.pass ≡ pass }
        ensures parts { fill_parts result ≡ parts }
        ensures fills { fills_of result ≡ no_fills }
    {
        FillSeat {
            pass,
            of: PhantomData,
            parts,
            fills: FillCounts::none(),
            evicted,
        }
    }

    /// Whether it has taken fewer jobs than a seat counts.
    pub(crate) fn may_take(&self) -> bool
        ensures { IsTrue result ↔ (taken_of (fills_of self.now) < 2 ^ 56) }
    {
        self.fills.calls + self.fills.rehits < MAX_COUNT
    }

    /// The jobs for which it called the source, or that it took out of the pool for that.
    pub fn calls(&self) -> u64
        ensures { result ≡ (fills_of self.now).calls }
    {
        self.fills.calls
    }

    /// The jobs whose fill was there before they were filled.
    pub fn rehits(&self) -> u64
        ensures { result ≡ (fills_of self.now).rehits }
    {
        self.fills.rehits
    }
}
