//! One event loop: it waits for what its clients can do, and gives each its turn.
//!
//! It stands on the turns of its clients (`Turns`), on its seats of the pool, and on the readiness of `mio`. It promises
//! that the seats stay those of the pool, with their parts.

use crate::facts::Facts;
use crate::limits::MAX_EVENTS;
use crate::seat::LoopSeat;
use crate::turns::Turns;
use mio::{Events, Poll};
use peer_runtime::{Network, WOKEN};
use peer_site::LoopSite;
use peer_source::Source;
use peer_stats::ASLEEP;
use std::alloc::Global;
use std::hint::spin_loop;
use std::sync::Wait;
use std::sync::ledger::Ledger;
use std::thread;
use std::time::{Clock, Duration, Instant};

// The number of its first turn: another than that of sleep.
const FIRST_TURN: u64 = ASLEEP + 1;

// From when on a turn is told that took longer than the wait behind it could: the system ends a wait some milliseconds late.
const LATE_MILLIS: u64 = 10;

/// What a loop waits by.
#[derive(Drop)]
pub struct Waits {
    pub poll: Poll,
    pub events: Events,
}

impl Waits {
    // Looks for events without waiting. Whether that went well.
    fn poll_now(&mut self) -> bool {
        self.poll
            .poll(&mut self.events, Some(Duration::ZERO))
            .is_ok()
    }

    // Whether as many events were reported as can be at once, so that more may be there.
    fn is_full(&self) -> bool {
        self.events.iter().count() >= MAX_EVENTS
    }
}

/// A loop and its clients.
#[derive(Drop)]
pub struct EventLoop<'a, S: Source, F: Facts<S>> {
    turns: Turns<'a, S, F>,
    // When clients that are overdue were last looked for, as it was when the caches were last published.
    caches_published: Duration,
    // The number of its turn, which it publishes.
    turn: u64,
}

impl<'a, S: Source, F: Facts<S>> EventLoop<'a, S, F> {
    ghost use Rattle.std.specs.Prelude.{◌≡◌};
    ghost use Rattle.peer_clients.specs.Parts.{KeepsParts};

    /// A loop without clients.
    pub fn new(alloc: Global, site: LoopSite<'a>) -> EventLoop<'a, S, F> {
        EventLoop {
            turns: Turns::new(alloc, site),
            caches_published: Duration::ZERO,
            turn: FIRST_TURN,
        }
    }

    // Publishes what the loop has counted, and that it is in its next turn.
    fn publish<L: Ledger>(&mut self, seat: &mut LoopSeat<'a, S, L, F>)
        ensures pool { seat.new.pool.now ≡ seat.old.pool.now }
        ensures parts { KeepsParts seat.old.seats seat.new.seats }
    {
        let slot = self.turns.site.slot();
        self.turn = self.turn.wrapping_add(1);
        slot.publish_turn(self.turn);
        slot.publish(seat.counts(self.turns.clients.each.len()));
        seat.publish_asks(slot);
        seat.publish_dropped(self.turns.site.shared.counters);
    }

    // Publishes what the caches have and have lost, and what clients hold, if a tick is over or the loop has no clients. Then the
    // clock of the records is set, too.
    fn publish_caches<L: Ledger, H: Wait + Clock>(
        &mut self,
        rt: &H,
        seat: &mut LoopSeat<'a, S, L, F>,
    )
        ensures pool { seat.new.pool.now ≡ seat.old.pool.now }
        ensures parts { KeepsParts seat.old.seats seat.new.seats }
    {
        if self.caches_published != self.turns.swept || self.turns.clients.each.is_empty() {
            self.caches_published = self.turns.swept;
            let shared = self.turns.site.shared;
            let untaken = shared.occupancy.held() as u64;
            shared.counters.publish_untaken_bytes(untaken);
            seat.publish_caches(rt, shared.counters);
            seat.tell_clock(rt, self.turns.now());
        }
    }

    // Notes what was reported.
    fn note(&mut self, waits: &Waits) {
        for event in waits.events.iter() {
            if event.token() != WOKEN {
                self.turns.clients.note(event);
            }
        }
    }

    // Notes all that is there by now.
    fn note_all(&mut self, waits: &mut Waits) {
        for _ in 0..=self.turns.clients.each.len() / MAX_EVENTS {
            if !waits.poll_now() {
                return;
            }
            self.note(waits);
            if !waits.is_full() {
                return;
            }
        }
    }

    // Counts how long the turn took that ends now. The clock is read once a turn: of one behind which the loop could wait so
    // long, that is known only where it took much longer.
    fn count_turn(&self, now: Duration, waited: Option<Duration>) {
        let Some(waited) = waited else {
            return;
        };
        let took = self.turns.since_turn(now).saturating_sub(waited);
        if waited.is_zero() || took >= Duration::from_millis(LATE_MILLIS) {
            self.turns.site.slot().count_turn(took);
        }
    }

    // Tells the time, behind a wait of so long at most. Where clients may be let go by it, all that is there is noted before: of
    // those who asked while the loop stood still it need not have been told.
    fn tell_time<H: Clock>(
        &mut self,
        rt: &H,
        begun: Option<Instant>,
        waited: Option<Duration>,
        waits: &mut Waits,
    ) {
        let Some(now) = begun.and_then(|begun| begun.elapsed(rt).ok()) else {
            return;
        };
        self.count_turn(now, waited);
        if self.turns.is_tick(now) {
            self.note_all(waits);
        }
        self.turns.tell_time(now);
    }

    // Reads and asks for what is there, and no more of its clients.
    fn stop<L: Ledger, H: Wait>(
        &mut self,
        rt: &H,
        seat: &mut LoopSeat<'a, S, L, F>,
        waits: &mut Waits,
    )
        ensures pool { seat.new.pool.now ≡ seat.old.pool.now }
        ensures parts { KeepsParts seat.old.seats seat.new.seats }
    {
        self.note_all(waits);
        self.turns.serve_told(rt, seat);
        self.turns.stop_clients();
    }

    // Has the jobs filled that were pushed. Where the loop fills them, those have their turn who waited for them.
    fn fill_jobs<L: Ledger, H: Wait>(&mut self, rt: &H, seat: &mut LoopSeat<'a, S, L, F>)
        ensures pool { seat.new.pool.now ≡ seat.old.pool.now }
        ensures parts { KeepsParts seat.old.seats seat.new.seats }
    {
        if !seat.has_jobs() {
            return;
        }
        seat.fill_jobs(rt);
        if seat.fills() {
            self.turns.serve_told(rt, seat);
        }
    }

    // Whether there is something to do by now.
    fn is_awake<L: Ledger>(&self, seat: &LoopSeat<'a, S, L, F>) -> bool {
        self.turns.clients.has_ready()
            || self.turns.site.mailbox.is_told()
            || self.turns.is_to_stop()
            || seat.has_jobs()
    }

    // Whether nothing is left to do, and nothing comes any more.
    fn is_done<L: Ledger>(&self, seat: &LoopSeat<'a, S, L, F>) -> bool {
        self.turns.site.mailbox.is_over()
            && self.turns.clients.each.is_empty()
            && !seat.has_left()
            && !seat.has_jobs()
    }

    // How long the loop may wait for events: not at all where there is something to do, and until the next tick where there
    // are clients.
    fn time_to_wait<L: Ledger, H: Wait>(
        &mut self,
        rt: &H,
        seat: &mut LoopSeat<'a, S, L, F>,
    ) -> Option<Duration>
        ensures pool { seat.new.pool.now ≡ seat.old.pool.now }
        ensures parts { KeepsParts seat.old.seats seat.new.seats }
    {
        let looks = if self.turns.clients.has_listed() {
            seat.filling.looks()
        } else {
            1
        };
        for _ in 0..looks {
            if self.is_awake(seat) {
                return Some(Duration::ZERO);
            }
            spin_loop();
        }
        self.turns.site.mailbox.fall_asleep();
        self.turns.push_left(rt, seat);
        if self.is_awake(seat) || self.is_done(seat) {
            Some(Duration::ZERO)
        } else if self.turns.clients.each.is_empty() {
            None
        } else {
            Some(self.turns.time_to_tick())
        }
    }

    // Waits for events so long, and notes what was reported.
    fn wait<H: Network>(&mut self, rt: &H, time: Option<Duration>, waits: &mut Waits) {
        if time.is_none() {
            self.turns.site.slot().publish_turn(ASLEEP);
        }
        let waited = waits.poll.poll(&mut waits.events, time);
        if time.is_none() {
            self.turns.site.slot().publish_turn(self.turn);
        }
        self.turns.site.mailbox.stay_awake();
        if waited.is_err() {
            thread::sleep(rt, self.turns.site.shared.limits.pause);
            return;
        }
        self.note(waits);
    }

    // One turn of the loop: it waits for events, and serves those whom they concern.
    fn serve_once<L: Ledger, H: Network>(
        &mut self,
        rt: &H,
        seat: &mut LoopSeat<'a, S, L, F>,
        waits: &mut Waits,
        begun: Option<Instant>,
    )
        ensures pool { seat.new.pool.now ≡ seat.old.pool.now }
        ensures parts { KeepsParts seat.old.seats seat.new.seats }
    {
        let time = self.time_to_wait(rt, seat);
        self.wait(rt, time, waits);
        // Before streams are taken: behind the look none is given, and a loop without clients may have slept for longer than a client
        // may be silent.
        let stops = self.turns.is_to_stop();
        self.tell_time(rt, begun, time, waits);
        self.turns.take_streams(rt, waits.poll.registry(), seat);
        if stops {
            self.stop(rt, seat, waits);
        }
        self.turns.serve_told(rt, seat);
        self.fill_jobs(rt, seat);
        self.publish(seat);
        self.publish_caches(rt, seat);
    }

    /// Serves until no more streams are given and all clients are gone.
    pub fn run<L: Ledger, H: Network>(
        &mut self,
        rt: &H,
        seat: &mut LoopSeat<'a, S, L, F>,
        waits: &mut Waits,
    )
        ensures pool { seat.new.pool.now ≡ seat.old.pool.now }
        ensures parts { KeepsParts seat.old.seats seat.new.seats }
    {
        let begun = Instant::now(rt).ok();
        seat.tell_clock(rt, Duration::ZERO);
        for _ in rt.forever() {
            if self.is_done(seat) {
                self.turns.site.slot().publish_turn(ASLEEP);
                return;
            }
            self.serve_once(rt, seat, waits, begun);
        }
        unreachable!()
    }
}
