//! Asking for the requests that are held.
//!
//! It stands on the wishes of `peer_wish` and the pool of `peer_fill`. It promises the tickets of the next wishes, each with a
//! claim on the fill of its group and key, or why there is none. The key is lent to the pool, which copies it where no cache has
//! its value.
ghost use Rattle.std.specs.Prelude.{◌≡◌, IfNone, IfOk, IfSome, IsSome};
ghost use Rattle.peer_fill.specs.Claiming.{KeepsSeat};
ghost use Rattle.peer_fill.specs.Pools.{source_of, IsConnSeatOf};
ghost use Rattle.peer_fill.specs.Seats.{asks_of, left_of};
ghost use Rattle.peer_wish.specs.Known.{IsKnown};
ghost use Rattle.peer_wish.specs.Tickets.{wish_by};
ghost use Rattle.peer_exchange.specs.Asking.{AsksHeld, CountsWish};

use crate::exchange_state::ExchangeState;
use crate::intake::{GivenUp, Intake};
use peer_fill::{ConnSeat, Pool};
use peer_flight::AskFault;
use peer_head::FieldPlaces;
use peer_source::Source;
use peer_wish::{Body, HeadNames, LentBody, LentWish, MAX_TICKETS, Next, Ticket};
use std::alloc::{AllocError, Global};
use std::sync::Wait;
use std::sync::ledger::Ledger;

/// What asking for the next request came to.
#[derive(Drop)]
pub(crate) enum Asked<S: Source> {
    /// Its ticket, which closes as the wish does, and how many of the bytes held its block takes with the pairs before it.
    Ticket(Ticket<S>, usize),
    /// What is held is unfinished.
    Need,
    /// The pool would have to wait.
    NotNow,
    Refused(GivenUp),
}

impl From<AskFault> for GivenUp {
    ghost use Rattle.peer_exchange.specs.Asking.{why_of};

    ghost from_gives = { λ fault why. why ≡ why_of fault };

    fn from(fault: AskFault) -> GivenUp {
        match fault {
            AskFault::Memory => GivenUp::Memory,
            AskFault::Worn => GivenUp::Worn,
        }
    }
}

/// Asks for the next request that is held. It stays held.
pub(crate) fn ask_first<S: Source, L: Ledger, H: Wait>(
    rt: &H,
    pool: &Pool<S, L>,
    seat: &mut ConnSeat<S, L>,
    names: &mut HeadNames<'_, S>,
    intake: &Intake,
    places: &mut FieldPlaces,
) -> Asked<S>
    requires seat { IsConnSeatOf pool.now seat.old }
    requires names { names.old ≡ source_of pool.now }
    ensures seat { KeepsSeat pool.now seat.old seat.new }
    ensures names { names.new ≡ names.old }
    ensures asks { AsksHeld (S.number_of names.old) intake.now.held (asks_of seat.old) (asks_of seat.new) (left_of seat.new) result }
{
    let alloc = intake.alloc;
    let next = match names.next_wish(alloc, intake.held.as_slice(), places) {
        Ok(Some(next)) => next,
        Ok(None) => return Asked::Need,
        Err(AllocError) => return Asked::Refused(GivenUp::Memory),
    };
    let Next { wish, len } = next;
    match ticket_of(rt, alloc, pool, seat, wish) {
        Ok(Some(ticket)) => Asked::Ticket(ticket, len),
        Ok(None) => Asked::NotNow,
        Err(fault) => Asked::Refused(GivenUp::from(fault)),
    }
}

// The ticket of a wish. Where that has group and key, the pool is asked: none where it would have to wait.
fn ticket_of<S: Source, L: Ledger, H: Wait>(
    rt: &H,
    alloc: Global,
    pool: &Pool<S, L>,
    seat: &mut ConnSeat<S, L>,
    wish: LentWish<'_>,
) -> Result<Option<Ticket<S>>, AskFault>
    requires seat { IsConnSeatOf pool.now seat.old }
    requires known { IsKnown (S.count (source_of pool.now)) wish.body }
    ensures seat { KeepsSeat pool.now seat.old seat.new }
    ensures ticket { IfOk result (λ asked. IfSome asked (λ t. wish_by t ≡ wish.entry)) }
    ensures counted { CountsWish wish.entry.body (asks_of seat.old) (asks_of seat.new) result }
    ensures not_now { IfOk result (λ asked. IfNone asked (IsSome (left_of seat.new))) }
{
    let LentWish {
        body,
        closing,
        bare,
    } = wish;
    let body = match body {
        LentBody::Fault(fault) => Body::Fault(fault),
        LentBody::Get(group, place) => {
            match pool.ask_now(rt, alloc, seat, group, place.key())? {
                Some(claim) => Body::Claim(claim),
                None => return Ok(None),
            }
        }
    };
    Ok(Some(Ticket {
        closing,
        bare,
        body,
    }))
}

impl<S: Source> ExchangeState<S> {
    ghost use Rattle.std.specs.Prelude.{◌≡◌, ◌<◌, ℕ, List, Option, true, false, OnOk};
    ghost use Rattle.std.specs.VecDeque.{deque_len, deque_capacity};
    ghost use Rattle.peer_head.specs.Blocks.{IsFrontLength};
    ghost use Rattle.peer_fill.specs.Claiming.{KeepsSeat};
    ghost use Rattle.peer_fill.specs.Pools.{source_of, IsConnSeatOf};
    ghost use Rattle.peer_fill.specs.Seats.{asks_of, left_of};
    ghost use Rattle.peer_wish.specs.Allowed.{allows};
    ghost use Rattle.peer_wish.specs.Nexts.{IsNextWish};
    ghost use Rattle.peer_wish.specs.Tickets.{wish_by};
    ghost use Rattle.peer_exchange.specs.Asking.{AddsTickets, AsksOne, Enqueues, IsJudgedThrough, KeepsWhereNext};
    ghost use Rattle.peer_exchange.specs.ExchangeStates.{Keeps};
    ghost use Rattle.peer_exchange.specs.Intakes.{GoesOn, JudgesOn, is_judging};

    /// Judges what is held, and asks the pool, until it is full.
    pub(crate) fn ask_held<L: Ledger, H: Wait>(
        &mut self,
        rt: &H,
        pool: &Pool<S, L>,
        seat: &mut ConnSeat<S, L>,
        names: &mut HeadNames<'_, S>,
    ) -> Result<(), GivenUp>
        requires seat { IsConnSeatOf pool.now seat.old }
        requires names { names.old ≡ source_of pool.now }
        ensures seat { KeepsSeat pool.now seat.old seat.new }
        ensures names { names.new ≡ names.old }
        ensures keeps { Keeps (S.number_of names.old) (allows S.allowed) self.old self.new }
        ensures tickets { AddsTickets self.old self.new (asks_of seat.old) (asks_of seat.new) result }
        ensures through { OnOk result (IsJudgedThrough self.new (left_of seat.new)) }
        ensures goes_on { GoesOn self.old.intake.stage self.new.intake.stage result }
        ensures window { self.new.window.tickets ≡ self.old.window.tickets }
    {
        let mut places = FieldPlaces::new();
        self.waits_for_job = false;
        for _ in 0..MAX_TICKETS {
            match self.ask_next(rt, pool, seat, names, &mut places) {
                Ok(true) => {}
                Ok(false) => return Ok(()),
                Err(why) => return Err(why),
            }
        }
        Ok(())
    }

    // Asks for the next request, and has its ticket wait. Whether there was one.
    fn ask_next<L: Ledger, H: Wait>(
        &mut self,
        rt: &H,
        pool: &Pool<S, L>,
        seat: &mut ConnSeat<S, L>,
        names: &mut HeadNames<'_, S>,
        places: &mut FieldPlaces,
    ) -> Result<bool, GivenUp>
        requires seat { IsConnSeatOf pool.now seat.old }
        requires names { names.old ≡ source_of pool.now }
        requires now { self.old.waits_for_job ≡ false }
        ensures seat { KeepsSeat pool.now seat.old seat.new }
        ensures names { names.new ≡ names.old }
        ensures keeps { Keeps (S.number_of names.old) (allows S.allowed) self.old self.new }
        ensures asks { AsksOne self.old self.new (asks_of seat.old) (asks_of seat.new) (left_of seat.new) result }
        ensures stage { OnOk result (JudgesOn self.old.intake.stage self.new.intake.stage) }
        ensures window { self.new.window.tickets ≡ self.old.window.tickets }
    {
        if self.is_full() || !self.intake.is_judging() {
            return Ok(false);
        }
        if self.waiting.reserve(1).is_err() {
            return Err(self.give_up(GivenUp::Memory));
        }
        let led = seat.led();
        match ask_first(rt, pool, seat, names, &self.intake, places) {
            Asked::Ticket(ticket, len) => {
                self.marks.note_asked(&ticket.body, seat.led() != led);
                self.enqueue(ticket, len);
                Ok(true)
            }
            Asked::Need => {
                self.intake.need();
                Ok(false)
            }
            Asked::NotNow => {
                self.waits_for_job = true;
                Ok(false)
            }
            Asked::Refused(why) => Err(self.give_up(why)),
        }
    }

    // The ticket of the next request waits, whose block takes `len` bytes.
    fn enqueue(&mut self, ticket: Ticket<S>, len: usize)
        requires next { (numbers : List ℕ → Option ℕ) × IsNextWish numbers self.old.intake.held (wish_by ticket) }
        requires front { IsFrontLength self.old.intake.held len }
        requires few { deque_len self.old.waiting < MAX_TICKETS }
        requires room { deque_len self.old.waiting < deque_capacity self.old.waiting }
        requires judging { is_judging self.old.intake.stage ≡ true }
        ensures upholds { KeepsWhereNext (allows S.allowed) (wish_by ticket) self.old self.new }
        ensures enqueues { Enqueues ticket self.old self.new }
        ensures stage { JudgesOn self.old.intake.stage self.new.intake.stage }
    {
        let closing = self.intake.closes(ticket.closing);
        self.intake.give(len, closing);
        self.waiting
            .push_back_reserved(Ticket { closing, ..ticket });
    }
}
