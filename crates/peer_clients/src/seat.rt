//! The seats of a loop, beside the pool that they are of and the room for what is read.
ghost use Rattle.std.specs.Prelude.{◌≡◌, Some};
ghost use Rattle.std.proofs.Props.{props};
ghost use Rattle.peer_fill.specs.Pools.{source_of};
ghost use Rattle.peer_clients.specs.Parts.{AreOf};

use crate::facts::Facts;
use crate::filling::{Filling, work};
use crate::limits::JOBS_OF_TURN;
use crate::loop_seats::LoopSeats;
use mio::net::TcpStream;
use peer_exchange::{Exchange, ReplyCounts, ReplyNotes, Rest};
use peer_fill::Pool;
use peer_source::{GroupId, MAX_GROUPS, Source};
use peer_stats::{AskCounts, CacheCounts, Counters, LoopCounts, LoopSlot, TrafficCounts};
use std::alloc::Global;
use std::marker::PhantomData;
use std::sync::Wait;
use std::sync::ledger::Ledger;
use std::time::{Clock, Duration};

// What the page tells of the caches of a group.
fn told(counts: peer_fill::CacheCounts) -> CacheCounts {
    CacheCounts {
        entries: counts.entries,
        bytes: counts.bytes,
        evicted_by_bytes: counts.lost.by_bytes,
        evicted_by_keys: counts.lost.by_keys,
        too_large: counts.lost.too_large,
    }
}

// The replies as the page tells them.
fn told_replies(counts: ReplyCounts) -> peer_stats::ReplyCounts {
    peer_stats::ReplyCounts {
        ok: counts.ok,
        bad_request: counts.bad_request,
        not_found: counts.not_found,
        not_allowed: counts.not_allowed,
        content_too_large: counts.content_too_large,
        head_too_large: counts.head_too_large,
        failed: counts.failed,
        not_implemented: counts.not_implemented,
        unknown_groups: counts.unknown_groups,
    }
}

/// The seats of a loop. All of its connections ask by the one.
#[derive(Drop)]
pub struct LoopSeat<'a, S: Source, L: Ledger, F: Facts<S>> {
    pub pool: &'a Pool<S, L>,
    pub alloc: Global,
    pub seats: LoopSeats<S, L>,
    /// Where streams are read into.
    pub buffer: Vec<u8>,
    /// By whom the jobs are filled that its connections push.
    pub filling: Filling<'a>,
    /// What is noted of the replies that its connections have put.
    pub notes: ReplyNotes,
    /// The bytes of its clients.
    pub traffic: TrafficCounts,
    pub of: PhantomData<F>,
    ghost of_pool: { AreOf pool.now seats } by { Prim.hlevel props },
    ghost source: { F.source ≡ Some (source_of pool.now) },
}

/// What became of the requests that a connection holds.
#[derive(Clone, Copy, PartialEq, Eq, Debug)]
pub enum Progress {
    /// All of them were judged, or the fill of the first ticket has to come first.
    Done,
    /// Replies have to be sent first.
    Unsent,
    /// More can be judged by now.
    More,
    /// A job is left with the seat, for which the queue has no room.
    NoRoom,
}

impl Progress {
    // What became of them, by what `ask_held` said, by what stands behind the answers, and by whether the first ticket waits
    // for a fill. Where no more could be judged before the answers, and more can now, they have made room.
    fn of(asked: Rest, now: Rest, waits: bool) -> Progress {
        if asked.job {
            Progress::NoRoom
        } else if asked.bytes {
            Progress::Done
        } else if now.bytes {
            Progress::More
        } else if !asked.fill {
            Progress::Unsent
        } else if waits {
            Progress::Done
        } else {
            Progress::More
        }
    }
}

impl<'a, S: Source, L: Ledger, F: Facts<S>> LoopSeat<'a, S, L, F> {
    ghost use Rattle.std.specs.Prelude.{◌≡◌, Some};
    ghost use Rattle.peer_clients.specs.Parts.{KeepsParts};

    /// A connection of this stream, which asks the pool.
    pub fn exchange(&self, stream: &TcpStream) -> Exchange<'a, S>
        ensures { F.source ≡ Some result.names }
    {
        if self.notes.has_records() {
            let client = stream.peer_addr().ok();
            return Exchange::recorded(self.alloc, self.pool.names(), client);
        }
        Exchange::new(self.alloc, self.pool.names())
    }

    /// Judges what a connection holds, asks for it, and puts the replies whose fills are there.
    pub fn serve<H: Wait>(&mut self, rt: &H, exchange: &mut Exchange<'a, S>) -> Progress
        requires { F.source ≡ Some exchange.old.names }
        ensures names { exchange.new.names ≡ exchange.old.names }
        ensures pool { self.new.pool.now ≡ self.old.pool.now }
        ensures parts { KeepsParts self.old.seats self.new.seats }
    {
        let Ok(asked) = exchange.ask_held(rt, self.pool, &mut self.seats.conn) else {
            return Progress::Done;
        };
        if exchange
            .answer_ready(self.pool, &mut self.seats.conn, &mut self.notes)
            .is_err()
        {
            return Progress::Done;
        }
        Progress::of(asked, exchange.rest(), exchange.awaits().is_some())
    }

    /// Puts the replies whose fills are there, and asks for nothing more.
    pub fn answer(&mut self, exchange: &mut Exchange<'a, S>) -> Progress
        requires { F.source ≡ Some exchange.old.names }
        ensures names { exchange.new.names ≡ exchange.old.names }
        ensures pool { self.new.pool.now ≡ self.old.pool.now }
        ensures parts { KeepsParts self.old.seats self.new.seats }
    {
        let _ = exchange.answer_ready(self.pool, &mut self.seats.conn, &mut self.notes);
        if exchange.rest().output {
            Progress::Unsent
        } else {
            Progress::Done
        }
    }

    /// So many bytes came of a client.
    pub fn note_received(&mut self, n: usize)
        ensures pool { self.new.pool.now ≡ self.old.pool.now }
        ensures seats { self.new.seats ≡ self.old.seats }
    {
        self.traffic.received = self.traffic.received.wrapping_add(n as u64);
    }

    /// A client took so many bytes.
    pub fn note_sent(&mut self, n: usize)
        ensures pool { self.new.pool.now ≡ self.old.pool.now }
        ensures seats { self.new.seats ≡ self.old.seats }
    {
        self.traffic.sent = self.traffic.sent.wrapping_add(n as u64);
    }

    /// Reads by the clock when the loop began, whose time it is now: what records have is that, and the time since.
    pub fn tell_clock<H: Clock>(&mut self, rt: &H, now: Duration)
        ensures pool { self.new.pool.now ≡ self.old.pool.now }
        ensures seats { self.new.seats ≡ self.old.seats }
    {
        if self.notes.has_records() {
            if let Ok(since) = rt.since_1970() {
                self.notes.tell_begun(since.saturating_sub(now));
            }
        }
    }

    /// Counts the replies that have no record, since the log has not taken those before.
    pub fn publish_dropped(&mut self, counters: &Counters)
        ensures pool { self.new.pool.now ≡ self.old.pool.now }
        ensures seats { self.new.seats ≡ self.old.seats }
    {
        counters.count_log_dropped(self.notes.take_dropped());
    }

    // How many jobs its connections have pushed.
    fn pushed(&self) -> u64 {
        let left = u64::from(self.has_left());
        self.seats.conn.led().wrapping_sub(left)
    }

    /// Whether jobs are there of which those were not told who fill them, or which the loop is to fill itself.
    pub fn has_jobs(&self) -> bool {
        self.filling.has_more || self.filling.told != self.pushed()
    }

    /// Whether it fills jobs itself.
    pub fn fills(&self) -> bool {
        self.seats.fill.is_some()
    }

    /// Has the jobs filled that its connections pushed: fills some, where the loop fills, and else wakes those who fetch.
    pub fn fill_jobs<H: Wait>(&mut self, rt: &H)
        ensures pool { self.new.pool.now ≡ self.old.pool.now }
        ensures parts { KeepsParts self.old.seats self.new.seats }
    {
        let pushed = self.pushed();
        self.filling.tell(pushed);
        let done = work(
            rt,
            self.alloc,
            self.pool,
            &mut self.seats.fill,
            &self.filling.gate,
        );
        self.filling.has_more = done == JOBS_OF_TURN;
    }

    /// What it has counted, where the loop has so many connections.
    pub fn counts(&self, connections: usize) -> LoopCounts {
        LoopCounts {
            asked: self.seats.conn.asked(),
            hits: self.seats.conn.hits(),
            led: self.seats.conn.led(),
            joined: self.seats.conn.joined(),
            strangers: self.seats.conn.strangers(),
            connections: connections as u64,
        }
    }

    /// Publishes what it has counted of the groups that were asked for since it did, and of replies.
    pub fn publish_asks(&mut self, slot: &LoopSlot)
        ensures pool { self.new.pool.now ≡ self.old.pool.now }
        ensures parts { KeepsParts self.old.seats self.new.seats }
    {
        slot.publish_replies(told_replies(self.notes.counts));
        slot.publish_traffic(self.traffic);
        for _ in 0..MAX_GROUPS {
            let Some(of_group) = self.seats.conn.next_untold() else {
                return;
            };
            let counts = AskCounts {
                hits: of_group.asks.hits,
                led: of_group.asks.led,
                joined: of_group.asks.joined,
            };
            slot.publish_group(of_group.group.number, counts);
        }
    }

    /// Publishes what the caches of each group keep and have lost, and the bytes of all of them.
    pub fn publish_caches<H: Wait>(&self, rt: &H, counters: &Counters) {
        let mut bytes = 0u64;
        for number in 0..self.pool.group_count() {
            let counts = self.pool.cache_counts(rt, GroupId { number });
            bytes = bytes.saturating_add(counts.bytes);
            counters.of_group(number).publish(told(counts));
        }
        counters.publish_cache_bytes(bytes);
    }

    /// Whether a job is left, for which the queue of jobs had no room.
    pub fn has_left(&self) -> bool {
        self.seats.conn.has_left()
    }

    /// Tries again to push the job that is left, and says whether none is left.
    pub fn put_left<H: Wait>(&mut self, rt: &H) -> bool
        ensures pool { self.new.pool.now ≡ self.old.pool.now }
        ensures parts { KeepsParts self.old.seats self.new.seats }
    {
        self.pool.put_left(rt, &mut self.seats.conn)
    }
}
