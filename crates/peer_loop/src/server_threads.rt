//! The threads of a server: how the seats are dealt to them, how they are started, and how the seats are taken back.
//!
//! A loop is handed a connection's seat, and one that fills where the loops fill. Else each seat that fills is for a thread of
//! its own. All that threads need beside their seats was had before, and room for all that comes back is had before the first
//! thread is started, so that nothing but a thread can be refused behind that.
ghost use Rattle.std.specs.Prelude.{◌≡◌, IfSome};
ghost use Rattle.peer_fetch.specs.Threads.{Allows};
ghost use Rattle.peer_fill.specs.Pools.{source_of};
ghost use Rattle.peer_fill.specs.Lists.{AreSeatsOf, HaveParts};
ghost use Rattle.peer_loop.specs.StartedThreads.{all_conns, all_fills, KeepAll, AreStarting, AreNew};

use crate::dealing::{join_loops, pop_loop};
use crate::filler::next_fetcher;
use crate::fillers::Fillers;
use crate::starting::{FillHandle, LoopHandle, spawn_filler, spawn_loop};
use crate::work::{AllWork, FillWork, ThreadParts};
use peer_clients::LoopWork;
use peer_fill::{Pool, Seats, join_seats, pop_seat};
use peer_origin::Wires;
use peer_runtime::Host;
use peer_site::{LoopSite, Site};
use peer_source::Source;
use std::alloc::Global;
use std::sync::ledger::Ledger;
use std::thread::Scope;

/// The threads of a server that were started, and what the others are to be handed.
#[derive(Drop)]
pub struct ServerThreads<'a, S: Source, L: Ledger> {
    pub pool: &'a Pool<S, L>,
    pub site: Site<'a>,
    alloc: Global,
    /// The seats that no thread has.
    pub seats: Seats<S, L>,
    /// What the threads that are not started yet need beside them.
    pub parts: ThreadParts<'a>,
    pub serving: Vec<LoopHandle<'a, S, L>>,
    pub working: Vec<FillHandle<'a, S, L>>,
}

impl<'a, S: Source + Send + Sync, L: Ledger + Send + Sync> ServerThreads<'a, S, L> {
    /// No thread was started.
    pub fn new<H: Wires>(
        alloc: Global,
        pool: &'a Pool<S, L>,
        work: AllWork<'a, S, L>,
    ) -> ServerThreads<'a, S, L>
        requires of { AreSeatsOf pool.now work.seats }
        requires allows { IfSome work.parts.fillers.plan (Allows H.carried (S.answers (source_of pool.now))) }
        ensures new { AreNew H.carried result }
        ensures pool { result.pool.now ≡ pool.now }
        ensures seats { result.seats ≡ work.entry.seats }
    {
        let AllWork { site, seats, parts } = work;
        ServerThreads {
            pool,
            site,
            alloc,
            seats,
            parts,
            serving: Vec::new(alloc),
            working: Vec::new(alloc),
        }
    }

    // Makes room for all threads, and for the seats that they give back. None where memory was refused.
    fn reserve<H: Wires>(&mut self) -> Option<()>
        requires { AreNew H.carried self.old }
        ensures { IfSome result (λ _. KeepAll H.carried self.old self.new) }
    {
        self.working.reserve(self.seats.fills.len()).ok()?;
        self.serving.reserve(self.seats.conns.len()).ok()?;
        self.seats.fills.reserve(self.seats.conns.len()).ok()
    }

    // How many threads that fill are to be started.
    fn fillers_left(&self) -> usize {
        match self.parts.fillers.fillers {
            Fillers::Threads(_) => self.seats.fills.len(),
            Fillers::Loops => 0,
        }
    }

    // Starts the thread of a loop. None where there is none for it to be handed, or where memory or a thread was refused.
    fn start_loop<E, H: Host + Wires>(&mut self, scope: &Scope<'a, E>, rt: &'a H) -> Option<()>
        requires { AreStarting H.carried self.old }
        ensures { IfSome result (λ _. KeepAll H.carried self.old self.new) }
    {
        let parts = self.parts.loops.pop()?;
        let number = self.parts.loops.len();
        let site = LoopSite {
            shared: self.site,
            mailbox: self.site.mailboxes.each.get(number)?,
            number,
        };
        let seats = pop_loop(self.pool, &mut self.seats)?;
        let work = LoopWork { seats, parts, site };
        let handle = spawn_loop(scope, rt, self.alloc, self.pool, work)?;
        self.serving.push_reserved(handle);
        Some(())
    }

    // Starts a thread that fills.
    fn start_filler<E, H: Host + Wires>(&mut self, scope: &Scope<'a, E>, rt: &'a H) -> Option<()>
        requires { AreStarting H.carried self.old }
        ensures { IfSome result (λ _. KeepAll H.carried self.old self.new) }
    {
        let seat = pop_seat(self.pool, &mut self.seats.fills)?;
        let plan = self.parts.fillers.plan;
        let fetcher = next_fetcher(
            self.alloc,
            plan,
            &mut self.parts.fillers.fetchers,
            self.site.wakers,
        );
        let gate = self.site.gate(self.seats.fills.len());
        let work = FillWork {
            seat,
            fetcher,
            gate,
        };
        let handle = spawn_filler(scope, rt, self.alloc, self.pool, work)?;
        self.working.push_reserved(handle);
        Some(())
    }

    // Starts the next thread: one that fills, where one is left, and else that of a loop.
    fn start_next<E, H: Host + Wires>(&mut self, scope: &Scope<'a, E>, rt: &'a H) -> Option<()>
        requires { AreStarting H.carried self.old }
        ensures { IfSome result (λ _. KeepAll H.carried self.old self.new) }
    {
        if self.fillers_left() > 0 {
            self.start_filler(scope, rt)
        } else {
            self.start_loop(scope, rt)
        }
    }

    /// Starts the threads that fill, and then the loops. None where memory or a thread was refused.
    pub fn start<E, H: Host + Wires>(&mut self, scope: &Scope<'a, E>, rt: &'a H) -> Option<()>
        requires { AreNew H.carried self.old }
        ensures { IfSome result (λ _. KeepAll H.carried self.old self.new) }
    {
        self.reserve::<H>()?;
        let count = self.fillers_left().saturating_add(self.parts.loops.len());
        for _ in 0..count {
            self.start_next(scope, rt)?;
        }
        Some(())
    }

    /// Waits for all threads, and gives all seats back. The loops end by themselves, and the others are told to.
    pub fn join<H: Host + Wires>(self, rt: &H) -> Seats<S, L>
        requires { AreStarting H.carried self }
        ensures { HaveParts self.entry.pool.now (all_conns self.entry) (all_fills self.entry) result }
    {
        let ServerThreads {
            pool,
            site,
            mut seats,
            serving,
            working,
            ..
        } = self;
        join_loops(rt, pool, serving, &mut seats);
        pool.stop();
        site.wakers.close();
        join_seats(rt, pool, working, &mut seats.fills);
        seats
    }
}
