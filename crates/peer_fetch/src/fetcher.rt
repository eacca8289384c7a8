//! The values of one thread that are under way, and the connections that are kept for the next ones.
//!
//! It stands on the connections of the thread (`Connections`), on the value of each (`UnderWay`), and on how many of them a
//! service may have (`Shares`): those that it may not yet have wait (`Waiting`), so that one whose values hang does not hold up
//! the others while a place is left. It promises that a value which is given back done was found on a connection of the network that carried its
//! request, and what `UnderWay` does: it is given back with its job, once at most. A value is asked for on a kept connection
//! only if that is to its own endpoint, which is looked at once more there (`Link::begin`).

mod connecting;
mod ending;
mod telling;

use crate::books::Books;
use crate::connections::{Connections, earlier};
use crate::link::Turn;
use crate::opening::System;
use crate::room::Room;
use crate::settings::{FetchPlan, FetchThreadSettings};
use mio::event::Event;
use peer_fill::TakenJob;
use peer_origin::{Endpoint, Failure, FetchFault, Wires};
use peer_runtime::Network;
use peer_source::Source;
use peer_stats::{ServiceHeld, ServiceSlots};
use peer_value::{Done, GroupShares, Numbered, Shares, UnderWay, Waiting};
use std::alloc::Global;
use std::net::SocketAddr;
use std::time::Duration;

// How many values may wait. Each key that waits is fetched in the end, or is late, whatever its clients hold by then.
const MAX_WAITING: usize = 4096;

// Where a connection leads to: an endpoint, its service, and an address.
#[derive(Clone, Copy)]
struct Place {
    // The number of its endpoint.
    number: usize,
    service: usize,
    address: SocketAddr,
}

/// The values that are under way, and those that wait.
#[derive(Drop)]
pub struct Fetcher<'a, S: Source, H: Wires> {
    alloc: Global,
    settings: FetchThreadSettings,
    connections: Connections<'a, S, H>,
    books: Books,
    shares: Shares,
    group_shares: GroupShares,
    waiting: Waiting<'a, S>,
    buffer: Vec<u8>,
    services: &'a ServiceSlots,
    told: Vec<ServiceHeld>,
}

impl<'a, S: Source, H: Network + Wires> Fetcher<'a, S, H> {
    ghost use Rattle.std.specs.Prelude.{◌≡◌, ◌↔◌, IfSome, IsTrue};
    ghost use Rattle.peer_fetch.specs.Fetchers.{HasNothing, MayTakeJob};
    ghost use Rattle.peer_value.specs.Endpoints.{IsOfGroup};
    ghost use Rattle.peer_value.specs.UnderWays.{IsCutOn, IsDoneOn};

    /// Nothing is under way.
    pub fn new(alloc: Global, plan: &FetchPlan<'a>, room: Room) -> Fetcher<'a, S, H> {
        let Room {
            books,
            idle,
            shares,
            group_shares,
            buffer,
            told,
        } = room;
        Fetcher {
            alloc,
            settings: plan.settings,
            connections: Connections::new(alloc, idle),
            books,
            shares,
            group_shares,
            waiting: Waiting::new(alloc),
            buffer,
            services: plan.services,
            told,
        }
    }

    /// Whether another job may be taken.
    pub fn has_room(&self) -> bool
        ensures { IsTrue result ↔ MayTakeJob self.now }
    {
        !self.shares.is_full() && self.waiting.count() < MAX_WAITING
    }

    /// Whether no value is under way, and none waits.
    pub fn is_empty(&self) -> bool
        ensures { IsTrue result ↔ HasNothing self.now }
    {
        self.shares.total() == 0 && self.waiting.count() == 0
    }

    /// How late it is, since the thread began, by the last look at the clock.
    pub fn now(&self) -> Duration {
        self.connections.now()
    }

    /// How many values wait.
    pub fn waiting_count(&self) -> usize {
        self.waiting.count()
    }

    /// Whether one is to have a turn.
    pub fn is_ready(&self) -> bool {
        self.connections.is_ready()
    }

    /// How many are to have a turn.
    pub fn ready_count(&self) -> usize {
        self.connections.ready_count()
    }

    /// The next that is to have a turn.
    pub fn next_ready(&mut self) -> Option<usize> {
        self.connections.next_ready()
    }

    /// How long nothing is to be given up, where values are under way or wait.
    pub fn time_left(&self) -> Option<Duration> {
        let mut due = self.connections.next_due();
        for number in 0..self.waiting.lines() {
            due = earlier(due, self.waiting.due(number));
        }
        due.map(|due| due.saturating_sub(self.connections.now()))
    }

    /// Notes an event of a connection, which then has its turn.
    pub fn note(&mut self, event: &Event) {
        self.connections.note(event);
    }

    // How late it is, by the clock. Where that cannot be read it is as late as it was.
    fn read_clock(&mut self, system: &System<'_, H>) -> Duration {
        if let Some(now) = system.now() {
            self.connections.tell_time(now);
        }
        self.connections.now()
    }

    /// Has those have a turn that are to be given up by now.
    pub fn give_up_late(&mut self, system: &System<'_, H>) {
        self.read_clock(system);
        self.connections.give_up_late();
    }

    // Asks for a value on a connection that is kept for its endpoint, or a new one.
    fn start(&mut self, system: &System<'_, H>, under: UnderWay<'a, S>) -> Option<Done<'a, S>>
        ensures { IfSome result (IsDoneOn H.carried) }
    {
        let mut under = under;
        let now = self.connections.now();
        under.note_begun(now);
        let number = under.number();
        if self.read_addresses(system, &under).is_err() {
            return Some(under.done(Err(FetchFault::Memory)));
        }
        let Some(key) = self.connections.take_idle(number) else {
            return self.connect_first(system, under);
        };
        match self.connections.get_mut(key) {
            Some(link) if link.number == number && link.may_begin() && under.is_unused() => {
                under.note_connected(now);
                link.begin(system.rt, under)
            }
            _ => return self.connect_first(system, under),
        }
        self.count_begun(number);
        self.connections.note_due(key);
        self.connections.make_ready(key);
        None
    }

    /// Fetches the value of a job from the endpoint of its group, or has it wait. A job whose value cannot be fetched is given
    /// back.
    pub fn begin(
        &mut self,
        system: &System<'_, H>,
        at: Numbered<'a>,
        job: TakenJob<S>,
    ) -> Option<Done<'a, S>>
        requires room { MayTakeJob self.old }
        requires own { IsOfGroup at job.place.group }
        ensures { IfSome result (IsDoneOn H.carried) }
    {
        let now = self.read_clock(system);
        let number = at.number();
        let has_room = self.has_room_for(number);
        let due = now.saturating_add(self.time_of(at.endpoint(), has_room));
        match UnderWay::begin(self.alloc, at, job, now, due) {
            Ok(under) if has_room => self.start(system, under),
            Ok(under) => self.waiting.push(number, under),
            Err(done) => Some(done),
        }
    }

    // How long a value of an endpoint's group has from now on, which is under way or waits. All wait as long, so that the first that
    // waits is the first to be given up.
    fn time_of(&self, endpoint: &Endpoint, is_under_way: bool) -> Duration {
        if is_under_way {
            endpoint.own.value_or(self.settings.fetch.value)
        } else {
            self.settings.fetch.wait
        }
    }

    // Whether another value of the group of an endpoint may be under way.
    fn has_room_for(&self, number: usize) -> bool {
        self.shares.has_room(self.shares.service(number)) && self.group_shares.has_room(number)
    }

    // One more value of an endpoint is under way.
    fn count_begun(&mut self, number: usize)
        ensures { self.new.connections ≡ self.old.connections }
    {
        self.shares.begin(self.shares.service(number));
        self.group_shares.begin(number);
    }

    // One value of an endpoint is under way no longer.
    fn count_ended(&mut self, place: Place) {
        self.shares.end(place.service);
        self.group_shares.end(place.number);
    }

    // When the first value that waits of a group is to be given up, if that is by now, or it may be under way.
    fn due_to_go_on(&self, number: usize) -> Option<Duration> {
        let due = self.waiting.due(number)?;
        if due <= self.connections.now() || self.has_room_for(number) {
            Some(due)
        } else {
            None
        }
    }

    // The group of the value that waits longest of those which may be under way now, or are to be given up.
    fn first_to_go_on(&self) -> Option<usize> {
        let mut first = None;
        let mut earliest = Duration::MAX;
        for number in 0..self.waiting.lines() {
            match self.due_to_go_on(number) {
                Some(due) if first.is_none() || due < earliest => {
                    first = Some(number);
                    earliest = due;
                }
                _ => {}
            }
        }
        first
    }

    /// Takes out a value that waited and may be under way now, or is to be given up.
    pub fn next_waiting(&mut self) -> Option<UnderWay<'a, S>> {
        let number = self.first_to_go_on()?;
        self.waiting.pop(number)
    }

    /// Fetches a value that waited, for which it has as long as one that did not wait. One that is to be given up, or cannot be
    /// fetched, is given back: so those that wait for a service whose addresses all rest are given back with the first free place.
    pub fn go_on(&mut self, system: &System<'_, H>, under: UnderWay<'a, S>) -> Option<Done<'a, S>>
        ensures { IfSome result (IsDoneOn H.carried) }
    {
        let now = self.read_clock(system);
        if under.due() <= now {
            return Some(under.done(Err(FetchFault::Late)));
        }
        let due = now.saturating_add(self.time_of(under.endpoint(), true));
        self.start(system, under.put_off(due))
    }

    // Makes the request for a value once more, on a new connection.
    fn ask_again(&mut self, system: &System<'_, H>, under: UnderWay<'a, S>) -> Option<Done<'a, S>>
        ensures { IfSome result (IsDoneOn H.carried) }
    {
        self.note_second_request(under.number());
        match under.again(self.alloc) {
            Ok(under) => self.connect_first(system, under),
            Err(done) => Some(done),
        }
    }

    // A connection ended before the value was there. A request on one that was kept is made once more, on a new one.
    fn cut(
        &mut self,
        system: &System<'_, H>,
        key: usize,
        under: UnderWay<'a, S>,
        failure: Failure,
    ) -> Option<Done<'a, S>>
        requires { IsCutOn H.carried under failure }
        ensures { IfSome result (IsDoneOn H.carried) }
    {
        let was_kept = self.connections.forget_cut(key);
        match failure {
            Failure::Fetch(fault) => {
                self.note_reply(under.number(), Some(fault));
                Some(under.done(Err(fault)))
            }
            Failure::Silent if was_kept => self.ask_again(system, under),
            Failure::Silent => Some(under.done(Err(FetchFault::Lost))),
        }
    }

    /// Gives a connection its turn. A value that is done is given back.
    pub fn turn(&mut self, system: &System<'_, H>, key: usize) -> Option<Done<'a, S>>
        ensures { IfSome result (IsDoneOn H.carried) }
    {
        let now = self.connections.now();
        let link = self.connections.get_mut(key)?;
        let number = link.number;
        let place = Place {
            number,
            service: self.shares.service(number),
            address: link.way.address,
        };
        let was_connected = link.is_connected();
        let is_late = link.is_late(now);
        let turn = link.turn(system.rt, &mut self.buffer, now);
        if !was_connected && link.is_connected() {
            self.note_connected(place);
        }
        match turn {
            Turn::Waits => None,
            Turn::Busy => {
                self.connections.make_ready(key);
                None
            }
            Turn::Gone => {
                self.connections.lose(key);
                None
            }
            Turn::Done(done, reusable) => {
                self.count_ended(place);
                self.note_end(place, done.fault(), is_late);
                self.release(key, place, reusable);
                Some(done)
            }
            Turn::Unconnected(under, end) => {
                self.count_ended(place);
                self.note_unconnected(place, end);
                self.connect_next(system, key, under)
            }
            Turn::Cut(under, failure) => {
                self.count_ended(place);
                self.cut(system, key, under, failure)
            }
        }
    }
}
