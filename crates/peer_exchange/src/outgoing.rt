//! The replies of a connection, from fills and faults to the bytes that wait to be sent.
//!
//! It stands on the replies of `peer_reply` and the pool of `peer_fill`. It promises one whole reply for each ticket that
//! is answered, and none where memory is refused.
ghost use Rattle.std.specs.Prelude.{◌≡◌, ◌++◌, IfSome, IfNone, None, Some, true, false};
ghost use Rattle.peer_source.specs.Answers.{Found};
ghost use Rattle.peer_reply.specs.Texts.{fault_reply};
ghost use Rattle.peer_flight.specs.Claims.{Looked};
ghost use Rattle.peer_wish.specs.Allowed.{allows};
ghost use Rattle.peer_wish.specs.Tickets.{claim_wish, fill_wish};
ghost use Rattle.peer_exchange.specs.Holdings.{CameFor};
ghost use Rattle.peer_exchange.specs.Answering.{Answers, AnswersClaim, AnswersFilled, PutsReplyTo, PutsText, is_pending};

use peer_fill::Pool;
use peer_flight::Claim;
use peer_outbox::Outbox;
use peer_reply::{Fault, HeadRoom, Reply, ReplyForm};
use peer_source::{Fill, Outcome, Source};
use peer_view::ByteView;
use peer_wish::{Body, Ticket};
use std::alloc::{AllocError, Global};
use std::sync::ledger::Ledger;

/// The bytes that wait to be sent.
#[derive(Drop)]
pub(crate) struct Outgoing {
    alloc: Global,
    head: HeadRoom,
    pub(crate) out: Outbox,
}

/// What became of a ticket.
#[derive(Drop)]
pub(crate) enum Answered {
    /// Its fill is not there yet.
    Waits,
    /// Its reply was put. `refilled`: the fill that came was of another place, so that `Pool::refill` made one.
    Put { refilled: bool },
}

/// The fill of a claim, where it is there.
pub(crate) fn look_once<S: Source>(claim: &Claim<S>) -> Option<&Fill<S>>
    ensures there { IfSome result (λ fill. Looked claim.now None (Some fill.now) (Some fill.now)) }
    ensures none { IfNone result (is_pending claim.now ≡ true) }
{
    let mut note = claim.note();
    claim.look(&mut note)
}

// The value in which the reply of a fill ends, where it does.
fn value_of<S: Source>(fill: &Fill<S>, bare: bool) -> Option<&ByteView>
    ensures { IfSome result (λ value. (bare ≡ false) × (fill.now.answer ≡ Some (Found value.now))) }
{
    match fill.outcome() {
        Outcome::Found(value) if !bare => Some(value),
        _ => None,
    }
}

/// How many bytes of a value or a text came for a ticket.
pub(crate) fn len_of<S: Source>(ticket: &Ticket<S>) -> usize
    ensures { CameFor ticket.now.body result }
{
    let Body::Claim(claim) = &ticket.body else {
        return 0;
    };
    let Some(fill) = look_once(claim) else {
        return 0;
    };
    match fill.outcome() {
        Outcome::Found(value) => value.len(),
        Outcome::Failed(text) => text.len(),
        Outcome::NoMemory => 0,
    }
}

impl Outgoing {
    ghost use Rattle.std.specs.Prelude.{◌≡◌, []};

    /// It takes no memory yet.
    pub(crate) fn new(alloc: Global) -> Outgoing
        ensures { result.out.bytes ≡ [] }
    {
        Outgoing {
            alloc,
            head: HeadRoom::new(),
            out: Outbox::new(alloc),
        }
    }

    /// How many bytes the head of the last reply has.
    pub(crate) fn head_len(&self) -> usize {
        self.head.as_slice().len()
    }

    /// Puts the reply of a ticket, where its fill is there.
    pub(crate) fn answer<S: Source, L: Ledger>(
        &mut self,
        pool: &Pool<S, L>,
        ticket: &Ticket<S>,
    ) -> Result<Answered, AllocError>
        ensures { Answers (allows S.allowed) ticket.now self.old.out.bytes self.new.out.bytes result }
    {
        let form = ReplyForm {
            closing: ticket.closing,
            bare: ticket.bare,
        };
        match &ticket.body {
            Body::Fault(fault) => match self.put_fault(fault, form) {
                Ok(()) => Ok(Answered::Put { refilled: false }),
                Err(fault) => Err(fault),
            },
            Body::Claim(claim) => self.answer_claim(pool, claim, form),
        }
    }

    // Puts the reply of a claim, where its fill is there. That of a ready claim is its own, and is not compared.
    fn answer_claim<S: Source, L: Ledger>(
        &mut self,
        pool: &Pool<S, L>,
        claim: &Claim<S>,
        form: ReplyForm,
    ) -> Result<Answered, AllocError>
        ensures { AnswersClaim (allows S.allowed) claim.now form self.old.out.bytes self.new.out.bytes result }
    {
        if let Claim::Ready(fill) = claim {
            return match self.put_fill(fill, form) {
                Ok(()) => Ok(Answered::Put { refilled: false }),
                Err(fault) => Err(fault),
            };
        }
        let Some(fill) = look_once(claim) else {
            return Ok(Answered::Waits);
        };
        self.put_filled(pool, claim, fill, form)
    }

    // Puts the reply of a claim whose fill came, which is refilled where that is of another place than the claim's.
    fn put_filled<S: Source, L: Ledger>(
        &mut self,
        pool: &Pool<S, L>,
        claim: &Claim<S>,
        fill: &Fill<S>,
        form: ReplyForm,
    ) -> Result<Answered, AllocError>
        ensures { AnswersFilled (allows S.allowed) claim.now fill.now form self.old.out.bytes self.new.out.bytes result }
    {
        match pool.refill(self.alloc, claim, fill) {
            Ok(None) => match self.put_fill(fill, form) {
                Ok(()) => Ok(Answered::Put { refilled: false }),
                Err(fault) => Err(fault),
            },
            Ok(Some(own)) => match self.put_fill(&own, form) {
                Ok(()) => Ok(Answered::Put { refilled: true }),
                Err(fault) => Err(fault),
            },
            Err(fault) => Err(fault),
        }
    }

    // Puts the reply of a fill.
    fn put_fill<S: Source>(&mut self, fill: &Fill<S>, form: ReplyForm) -> Result<(), AllocError>
        ensures { PutsReplyTo (allows S.allowed) (fill_wish fill.now form) self.old.out.bytes self.new.out.bytes result }
    {
        fill.law();
        let Some(reply) = Reply::of_fill(&mut self.head, fill, form.closing, form.bare) else {
            return Err(AllocError);
        };
        match value_of(fill, form.bare) {
            Some(value) => self.out.put_value(&reply.parts(), value),
            None => self.out.put(&reply.parts()),
        }
    }

    // Puts the reply to a fault.
    fn put_fault(&mut self, fault: &Fault, form: ReplyForm) -> Result<(), AllocError>
        ensures { PutsText (fault_reply form.closing form.bare fault.now) self.old.out.bytes self.new.out.bytes result }
    {
        let reply = Reply::of_fault(&mut self.head, fault, form.closing, form.bare);
        self.out.put(&reply.parts())
    }
}
