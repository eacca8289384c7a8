//! The writer's side of a connection: from tickets to responses.
//!
//! It stands on the claims of `peer_flight`, the fills of `peer_fill` and the lanes of `peer_lane`. It promises a reply
//! for each ticket that it took, in order, as far as the writer goes; and that a fill of another group or key than was
//! asked for is not written.
ghost use Rattle.std.specs.Prelude.{◌≡◌, ℕ, ◌<◌, ◌^◌, IfSome, None, Some};
ghost use Rattle.peer_flight.specs.Claims.{Looked};

use crate::responses::Responses;
use peer_fill::Pool;
use peer_flight::Claim;
use peer_lane::{LaneIn, LaneOut, Signal, beside};
use peer_reply::ReplyForm;
use peer_source::{Fill, Source};
use peer_view::PeerWrite;
use peer_wish::{Body, Ticket};
use std::alloc::Global;
use std::hint::spin_loop;
use std::sync::Wait;
use std::sync::ledger::Ledger;

// How often a fill is looked for before what is buffered is written: about as long as a worker needs for a small fill,
// so that the replies to small fills go out together.
const LOOKS: u32 = 64;

// The fill of a claim, where it comes within a few looks.
fn look_briefly<S: Source>(claim: &Claim<S>) -> Option<&Fill<S>>
    ensures { IfSome result (λ fill. Looked claim.now None (Some fill.now) (Some fill.now)) }
{
    let mut note = claim.note();
    for _ in 0..LOOKS {
        if let Some(fill) = claim.look(&mut note) {
            return Some(fill);
        }
        spin_loop();
    }
    None
}

/// What the writer works with. One that puts no more replies still takes tickets, so that no `put` waits for ever.
#[derive(Drop)]
pub(crate) struct WriterSide<S: Source, W: PeerWrite + Drop> {
    pub(crate) alloc: Global,
    pub(crate) lane: LaneOut<S>,
    pub(crate) responses: Responses<W>,
    /// How many tickets were refilled, since the fill that came was of another group or key than was asked for.
    pub(crate) strangers: u64,
    ghost strangers_fit: { strangers < 2 ^ 64 },
}

impl<S: Source, W: PeerWrite + Drop> WriterSide<S, W> {
    ghost use Rattle.std.specs.Prelude.{◌≡◌, [], ◌∷◌, ◌++◌, option_to_list};
    ghost use Rattle.peer_lane.specs.Lanes.{IsLane, IsSameOut, tickets_taken};
    ghost use Rattle.peer_wish.specs.Tickets.{wish_by, claim_wish, fill_wish};
    ghost use Rattle.peer_wish.specs.Allowed.{allows};
    ghost use Rattle.peer_wish.specs.Strangers.{flight_count, flights_in_body};
    ghost use Rattle.peer_conn.specs.Responses.{PutsReplies};
    ghost use Rattle.peer_conn.specs.WriterSides.{AnswersTickets, AnswersLeft, KeepsTickets};
    ghost use Rattle.peer_conn.specs.Strangers.{CountsFill};

    /// No ticket was refilled yet.
    pub(crate) fn new(alloc: Global, lane: LaneOut<S>, responses: Responses<W>) -> WriterSide<S, W>
        ensures lane { result.lane ≡ lane }
        ensures responses { result.responses ≡ responses }
        ensures strangers { result.strangers ≡ 0 }
    {
        WriterSide {
            alloc,
            lane,
            responses,
            strangers: 0,
        }
    }

    /// Takes tickets until no more are put, and puts their replies.
    pub(crate) fn run<L: Ledger, H: Wait>(&mut self, rt: &H, pool: &Pool<S, L>, signal: &Signal)
        ensures { AnswersTickets (allows S.allowed) self.old self.new }
    {
        for _ in rt.forever() {
            let Some(ticket) = self.next_ticket(rt, signal) else {
                return;
            };
            self.put(rt, pool, ticket);
            self.tell(signal);
        }
        unreachable!()
    }

    /// Puts the replies of the tickets that are left, once both ends are at hand, and writes what is buffered.
    pub(crate) fn write_left<L: Ledger, H: Wait>(
        &mut self,
        rt: &H,
        pool: &Pool<S, L>,
        put: &mut LaneIn<S>,
    )
        requires { IsLane put.old self.old.lane }
        ensures left { AnswersLeft (allows S.allowed) put.old self.old self.new }
        ensures empty { self.new.responses.out.buffered.items ≡ [] }
    {
        let left = beside(put, &mut self.lane);
        for _ in 0..left {
            let ticket = self.lane.take_known();
            self.put(rt, pool, ticket);
        }
        self.responses.flush();
    }

    // The next ticket. Before a wait for one, what is buffered is written.
    fn next_ticket<H: Wait>(&mut self, rt: &H, signal: &Signal) -> Option<Ticket<S>>
        ensures lane { IsSameOut self.old.lane self.new.lane }
        ensures taken { tickets_taken self.new.lane ≡ tickets_taken self.old.lane ++ option_to_list result }
        ensures replies { PutsReplies (allows S.allowed) self.old.responses self.new.responses [] }
        ensures strangers { self.new.strangers ≡ self.old.strangers }
    {
        if let Some(ticket) = self.lane.take() {
            signal.notify();
            return Some(ticket);
        }
        self.responses.flush();
        self.tell(signal);
        self.lane.take_waiting(rt, signal)
    }

    // Tells the reader to stop, where no more replies are put.
    fn tell(&self, signal: &Signal) {
        if !self.responses.is_active() {
            signal.stop();
        }
    }

    // Puts the reply of a ticket, and lets the ticket go.
    fn put<L: Ledger, H: Wait>(&mut self, rt: &H, pool: &Pool<S, L>, ticket: Ticket<S>)
        ensures replies { PutsReplies (allows S.allowed) self.old.responses self.new.responses (wish_by ticket ∷ []) }
        ensures others { KeepsTickets (flights_in_body ticket.body) self.old self.new }
    {
        let form = ReplyForm {
            closing: ticket.closing,
            bare: ticket.bare,
        };
        match &ticket.body {
            Body::Fault(fault) => self.responses.put_fault(fault, form),
            Body::Claim(claim) => self.put_claim(rt, pool, claim, form),
        }
    }

    // Puts the reply of a claim. Before a wait for its fill, what is buffered is written; where that fails, there is no
    // wait.
    fn put_claim<L: Ledger, H: Wait>(
        &mut self,
        rt: &H,
        pool: &Pool<S, L>,
        claim: &Claim<S>,
        form: ReplyForm,
    )
        ensures replies { PutsReplies (allows S.allowed) self.old.responses self.new.responses (claim_wish claim.now form ∷ []) }
        ensures others { KeepsTickets (flight_count claim.now) self.old self.new }
    {
        if !self.responses.is_active() {
            return;
        }
        if let Some(fill) = look_briefly(claim) {
            return self.put_filled(pool, claim, fill, form);
        }
        self.responses.flush();
        if self.responses.is_active() {
            let fill = pool.wait_for(rt, claim);
            self.put_filled(pool, claim, fill, form);
        }
    }

    // Puts the reply of a claim whose fill came. A fill of another place than the claim's is not written: it is counted and one
    // of its own is, or memory was refused.
    fn put_filled<L: Ledger>(
        &mut self,
        pool: &Pool<S, L>,
        claim: &Claim<S>,
        fill: &Fill<S>,
        form: ReplyForm,
    )
        ensures replies { PutsReplies (allows S.allowed) self.old.responses self.new.responses (claim_wish claim.now form ∷ []) }
        ensures lane { self.new.lane ≡ self.old.lane }
        ensures counts { CountsFill claim.now fill.now self.new.responses.state self.old.strangers self.new.strangers }
    {
        match pool.refill(self.alloc, claim, fill) {
            Ok(None) => self.put_fill(fill, form),
            Ok(Some(own)) => {
                self.strangers = self.strangers.saturating_add(1);
                self.put_fill(&own, form)
            }
            Err(_) => self.responses.refuse(),
        }
    }

    // Puts the reply of a fill.
    fn put_fill(&mut self, fill: &Fill<S>, form: ReplyForm)
        ensures replies { PutsReplies (allows S.allowed) self.old.responses self.new.responses (fill_wish fill.now form ∷ []) }
        ensures lane { self.new.lane ≡ self.old.lane }
        ensures strangers { self.new.strangers ≡ self.old.strangers }
    {
        fill.law();
        self.responses.put_fill(fill, form);
    }
}
