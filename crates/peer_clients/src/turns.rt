//! The turns of a loop's clients: who has one, what it leads to, and who is let go.
//!
//! It stands on the clients and their lists (`Clients`), and on the seats of the loop. It promises that the seats stay those
//! of the pool, with their parts.

use crate::client::Client;
use crate::client_state::ClientState;
use crate::clients::Clients;
use crate::facts::Facts;
use crate::limits::STILL_TICKS;
use crate::seat::LoopSeat;
use mio::Registry;
use peer_runtime::keys_of;
use peer_site::{LoopSite, MAX_ARRIVED, SLOTS_OF_WORD, WORDS, slot_of};
use peer_source::Source;
use peer_stats::Closing;
use std::alloc::Global;
use std::sync::Wait;
use std::sync::ledger::Ledger;
use std::time::Duration;

/// The clients of a loop, and what their turns need beside the seats.
#[derive(Drop)]
pub struct Turns<'a, S: Source, F: Facts<S>> {
    pub site: LoopSite<'a>,
    pub clients: Clients<'a, S, F>,
    // Whether its clients were stopped.
    stopped: bool,
    // The time since the loop began, as it was when it last waited.
    now: Duration,
    /// When it last looked for clients that are overdue.
    pub swept: Duration,
    // Where the next look for them begins: behind the one that was let go last for want of room, or else it would always be the same
    // ones.
    next_sweep_key: usize,
}

impl<'a, S: Source, F: Facts<S>> Turns<'a, S, F> {
    ghost use Rattle.std.specs.Prelude.{◌≡◌};
    ghost use Rattle.peer_clients.specs.Parts.{KeepsParts};

    /// No client is there.
    pub fn new(alloc: Global, site: LoopSite<'a>) -> Turns<'a, S, F> {
        Turns {
            site,
            clients: Clients::new(alloc),
            stopped: false,
            now: Duration::ZERO,
            swept: Duration::ZERO,
            next_sweep_key: 0,
        }
    }

    /// Takes in the streams that were given. Once the server was told to end, they are let go. One that memory or the system has no
    /// place for is let go too, and counted as an accept that failed.
    pub fn take_streams<L: Ledger, H: Wait>(
        &mut self,
        rt: &H,
        registry: &Registry,
        seat: &LoopSeat<'a, S, L, F>,
    ) {
        for _ in 0..MAX_ARRIVED {
            let Some(stream) = self.site.mailbox.next_stream(rt) else {
                return;
            };
            let exchange = seat.exchange(&stream);
            let client = Client::new(stream, exchange, self.now);
            if self.stopped {
                self.site.shared.occupancy.leave();
            } else if !self.clients.add(registry, client) {
                self.site.shared.counters.accepts().count_failed();
                self.site.shared.occupancy.leave();
            }
        }
    }

    // Lets a client go, for this reason.
    fn forget(&mut self, key: usize, why: Closing) {
        if let Some(mut client) = self.clients.remove(key) {
            self.site.slot().count_close(why);
            client.let_go(self.site.shared.occupancy);
            // Before the place is free: the next one needs its file.
            drop(client);
            self.site.shared.occupancy.leave();
        }
    }

    // Lets a client go whose turn came to that.
    fn forget_done(&mut self, key: usize) {
        let Some(client) = self.clients.each.get(key) else {
            return;
        };
        let why = client.closing(self.stopped);
        self.forget(key, why);
    }

    // Lists a client as one that waits for a fill, and looks whether it has come meanwhile.
    fn list(&mut self, key: usize, number: u64) {
        let slot = slot_of(number);
        self.clients.list(key, slot);
        self.site.mailbox.want(slot);
        if self.clients.awaits(key) != Some(number) {
            self.clients.make_ready(key);
        }
    }

    // Lists a client as one that waits for the fill of this flight, or for none.
    fn list_awaited(&mut self, key: usize, awaits: Option<u64>) {
        match awaits {
            Some(number) => self.list(key, number),
            None => self.clients.unlist(key),
        }
    }

    // Gives those their turn that waited for room, in the order in which they came, until a job is left once more: the others
    // would ask in vain.
    fn serve_for_room<L: Ledger, H: Wait>(&mut self, rt: &H, seat: &mut LoopSeat<'a, S, L, F>)
        ensures pool { seat.new.pool.now ≡ seat.old.pool.now }
        ensures parts { KeepsParts seat.old.seats seat.new.seats }
    {
        for _ in 0..self.clients.for_room_count() {
            if seat.has_left() {
                return;
            }
            let Some(key) = self.clients.next_for_room() else {
                return;
            };
            // One that is to have a turn anyway has it soon, and no second one now.
            if !self.clients.is_ready(key) {
                self.serve(rt, seat, key);
            }
        }
    }

    /// Pushes the job that is left, if another client's ask has not. Where none is left, those have their turn that waited for
    /// room.
    pub fn push_left<L: Ledger, H: Wait>(&mut self, rt: &H, seat: &mut LoopSeat<'a, S, L, F>)
        ensures pool { seat.new.pool.now ≡ seat.old.pool.now }
        ensures parts { KeepsParts seat.old.seats seat.new.seats }
    {
        if self.clients.for_room_count() == 0 && !seat.has_left() {
            return;
        }
        self.site.mailbox.want_room();
        if seat.put_left(rt) {
            self.serve_for_room(rt, seat);
        }
    }

    // Gives a client its turn. What it waits for behind that, none where there is no such client.
    fn turn<L: Ledger, H: Wait>(
        &mut self,
        rt: &H,
        seat: &mut LoopSeat<'a, S, L, F>,
        key: usize,
    ) -> Option<ClientState>
        ensures pool { seat.new.pool.now ≡ seat.old.pool.now }
        ensures parts { KeepsParts seat.old.seats seat.new.seats }
    {
        let client = self.clients.each.get_mut(key)?;
        let state = client.turn(rt, seat, self.now, self.site.shared.occupancy);
        client.count_held(self.site.shared.occupancy);
        client.count_wait(self.now, self.site.shared.counters.waits());
        Some(state)
    }

    // Lists a client by what it waits for behind its turn, or lets it go.
    fn settle(&mut self, key: usize, state: ClientState) {
        match state {
            ClientState::Idle => self.clients.unlist(key),
            ClientState::Awaits(number) => self.list(key, number),
            ClientState::NoRoom(awaits) => {
                self.clients.wait_for_room(key);
                self.list_awaited(key, awaits);
            }
            ClientState::Busy => self.clients.make_ready(key),
            ClientState::Gone => self.forget_done(key),
        }
    }

    // Gives a client its turn, and lists it by what it waits for behind that.
    fn serve<L: Ledger, H: Wait>(&mut self, rt: &H, seat: &mut LoopSeat<'a, S, L, F>, key: usize)
        ensures pool { seat.new.pool.now ≡ seat.old.pool.now }
        ensures parts { KeepsParts seat.old.seats seat.new.seats }
    {
        if let Some(state) = self.turn(rt, seat, key) {
            self.settle(key, state);
        }
    }

    // Gives each of those their turn that are to have one by now.
    fn serve_ready<L: Ledger, H: Wait>(&mut self, rt: &H, seat: &mut LoopSeat<'a, S, L, F>)
        ensures pool { seat.new.pool.now ≡ seat.old.pool.now }
        ensures parts { KeepsParts seat.old.seats seat.new.seats }
    {
        for _ in 0..self.clients.ready_count() {
            let Some(key) = self.clients.next_ready() else {
                return;
            };
            self.serve(rt, seat, key);
        }
    }

    // Has those at the slots of a word have their turn that were told.
    fn take_told(&mut self, word: usize) {
        let mut told = self.site.mailbox.take_told(word);
        for _ in 0..SLOTS_OF_WORD {
            let Some(slot) = told.next_slot() else {
                return;
            };
            self.clients.take_listed(slot);
        }
    }

    // Counts what a client holds, for which values may have come since its turn, and says why it is to be let go, if it is. One
    // that is to stay and has output has a turn.
    fn look_at(&mut self, key: usize, full: bool) -> Option<Closing> {
        let shared = self.site.shared;
        let client = self.clients.each.get_mut(key)?;
        client.count_held(shared.occupancy);
        if client.is_overdue(shared.limits, full, self.now) {
            return Some(client.overdue_closing(shared.limits, full, self.now, self.stopped));
        }
        if client.retry_write() {
            self.clients.make_ready(key);
        }
        None
    }

    // Lets those go that were silent, or took nothing, for too long, and counts what the others hold. Where no more connections
    // could be had, which `full` says, others than these are let go until some are free again.
    fn sweep(&mut self, mut full: bool) {
        let keys = keys_of(&self.clients.each).end;
        let first = self.next_sweep_key;
        for n in 0..keys {
            let key = first.wrapping_add(n) % keys;
            if let Some(why) = self.look_at(key, full) {
                self.forget(key, why);
                if full && !self.site.shared.occupancy.is_crowded() {
                    full = false;
                    self.next_sweep_key = key.wrapping_add(1);
                }
            }
        }
    }

    // Reads nothing more of a client, and has it its turn, in which it is closed where it waits for nothing.
    fn stop_client(&mut self, key: usize) {
        if let Some(client) = self.clients.each.get_mut(key) {
            client.stop();
            self.clients.make_ready(key);
        }
    }

    /// Whether the server was told to end, and its clients were not stopped yet.
    pub fn is_to_stop(&self) -> bool {
        !self.stopped && self.site.mailbox.is_stopping()
    }

    /// Reads nothing more of the clients. They are closed as others are, so that none loses a reply that is on its way.
    pub fn stop_clients(&mut self) {
        self.stopped = true;
        for key in keys_of(&self.clients.each) {
            self.stop_client(key);
        }
    }

    /// Gives those their turn whom fills and room concern, and all others that are to have one.
    pub fn serve_told<L: Ledger, H: Wait>(&mut self, rt: &H, seat: &mut LoopSeat<'a, S, L, F>)
        ensures pool { seat.new.pool.now ≡ seat.old.pool.now }
        ensures parts { KeepsParts seat.old.seats seat.new.seats }
    {
        for word in 0..WORDS {
            self.take_told(word);
        }
        self.push_left(rt, seat);
        self.serve_ready(rt, seat);
    }

    /// How long after the loop began it last waited.
    pub fn now(&self) -> Duration {
        self.now
    }

    /// How long ago the last turn began, by then.
    pub fn since_turn(&self, now: Duration) -> Duration {
        now.saturating_sub(self.now)
    }

    /// How long it is until the next tick.
    pub fn time_to_tick(&self) -> Duration {
        let tick = self.site.shared.limits.tick;
        tick.saturating_sub(self.now.saturating_sub(self.swept))
    }

    /// Whether a tick is over by then.
    pub fn is_tick(&self, now: Duration) -> bool {
        now.saturating_sub(self.swept) >= self.site.shared.limits.tick
    }

    // Whether the loop stood still until now, so that those have not had their turn who sent meanwhile.
    fn stood_still(&self, now: Duration) -> bool {
        let tick = self.site.shared.limits.tick;
        now.saturating_sub(self.swept) > tick.saturating_mul(STILL_TICKS)
    }

    /// So much time has passed since the loop began. Lets clients go that are overdue, where a tick is over.
    pub fn tell_time(&mut self, now: Duration) {
        self.now = now;
        if self.is_tick(now) {
            let full = self.site.shared.occupancy.is_out_of_room() && !self.stood_still(now);
            self.swept = now;
            self.sweep(full);
        }
    }
}
