//! The state of an exchange: what came and is not judged, the tickets that wait, and the replies that wait to be sent.
//!
//! It stands on the intake, the asks and the outgoing replies of a connection. It promises that
//! whatever came and was sent before a call, what it upholds is upheld behind the call.
ghost use Rattle.std.specs.Prelude.{◌≡◌, ◌+◌, ◌-◌, ◌^◌, ℕ, min};
ghost use Rattle.peer_exchange.specs.Holdings.{CameForAll};

use crate::intake::{GivenUp, Intake};
use crate::marks::Marks;
use crate::outgoing::{Outgoing, len_of};
use crate::window::{MAX_UNSENT, Window};
use peer_source::{FunctionalSource, Source};
use peer_wish::{HeadNames, Ticket};
use std::alloc::{AllocError, Global};
use std::collections::VecDeque;
use std::time::Duration;

#[derive(Drop)]
pub(crate) struct ExchangeState<S: Source> {
    pub(crate) intake: Intake,
    pub(crate) waiting: VecDeque<Ticket<S>>,
    pub(crate) outgoing: Outgoing,
    /// The next request waits until the seat has put the job that is left with it.
    pub(crate) waits_for_job: bool,
    pub(crate) window: Window,
    /// What an access log is told of those that wait.
    pub(crate) marks: Marks,
}

// So many bytes, and those of values and texts that came for the tickets.
fn with_came<S: Source>(bytes: usize, waiting: &VecDeque<Ticket<S>>) -> usize
    ensures { (came : ℕ) × CameForAll waiting.now.items came × (result ≡ min (bytes + came) (2 ^ 64 - 1)) }
{
    let mut all = bytes;
    for i in 0..waiting.len() {
        let Some(ticket) = waiting.get(i) else {
            unreachable!()
        };
        all = all.saturating_add(len_of(ticket));
    }
    all
}

impl<S: Source> ExchangeState<S> {
    ghost use Rattle.std.specs.Prelude.{◌≡◌, ◌≤◌, ◌+◌, ◌++◌, ℕ, List, [], Option, true, length, min, take, OnErr, OnOk, IfErr, IfOk};
    ghost use Rattle.peer_wish.specs.Allowed.{allows};
    ghost use Rattle.peer_outbox.specs.Outboxes.{BeginsWithBoth, IsFrontOf};
    ghost use Rattle.peer_exchange.specs.Holdings.{Holds};
    ghost use Rattle.peer_exchange.specs.Intakes.{IsGivenUpFor, told};
    ghost use Rattle.peer_exchange.specs.ExchangeStates.{Upholds, Keeps, Receives, Sends, GivesUp, SaysSent, SaysLittle};
    ghost use Rattle.peer_exchange.specs.ExchangeStates.{has_much_output, is_full, is_over, lent, lent_behind, room_of};
    ghost use Rattle.peer_exchange.specs.ExchangeStates.{takes_bytes, unsent};

    /// No byte came, and none was sent. It takes no memory yet, but for what is noted.
    pub(crate) fn new(alloc: Global, marks: Marks) -> ExchangeState<S>
        ensures upholds { (numbers : List ℕ → Option ℕ) → Upholds numbers (allows S.allowed) [] [] [] result }
        ensures open { takes_bytes result ≡ true }
        ensures none { (result.waiting.items ≡ []) × (unsent result ≡ []) }
        ensures window { result.window.tickets ≡ 1 }
    {
        ExchangeState {
            intake: Intake::new(alloc),
            waiting: VecDeque::new(alloc),
            outgoing: Outgoing::new(alloc),
            waits_for_job: false,
            window: Window::new(),
            marks,
        }
    }

    /// Whether bytes may come.
    pub(crate) fn takes_bytes(&self) -> bool
        ensures { result ≡ takes_bytes self.now }
    {
        self.intake.is_open()
    }

    /// Whether nothing is put until output was sent.
    pub(crate) fn has_much_output(&self) -> bool
        ensures { result ≡ has_much_output self.now }
    {
        self.outgoing.out.len() >= MAX_UNSENT
    }

    /// Whether nothing is asked: as many tickets wait as may, or much output.
    pub(crate) fn is_full(&self) -> bool
        ensures { result ≡ is_full self.now }
    {
        self.waiting.len() >= self.window.tickets || self.has_much_output()
    }

    /// How many bytes have room.
    pub(crate) fn room(&self) -> usize
        ensures { result ≡ room_of self.now }
    {
        self.intake.room()
    }

    /// As many of the bytes come as there is room for. How many. Where memory is refused, it is given up.
    pub(crate) fn receive(&mut self, bytes: &[u8]) -> Result<usize, GivenUp>
        requires { takes_bytes self.old ≡ true }
        ensures count { IfOk result (λ n. n ≡ min (length bytes.now) (room_of self.old)) }
        ensures upholds { IfOk result (λ n. Receives (allows S.allowed) self.old self.new (take n bytes.now)) }
        ensures goes_on { OnOk result (takes_bytes self.new ≡ true) }
        ensures refused { OnErr result ((numbers : List ℕ → Option ℕ) → Keeps numbers (allows S.allowed) self.old self.new) }
        ensures given_up { IfErr result (IsGivenUpFor self.new.intake.stage) }
        ensures window { self.new.window.tickets ≡ self.old.window.tickets }
    {
        match self.intake.receive(bytes) {
            Ok(n) => {
                self.marks.note_came();
                Ok(n)
            }
            Err(AllocError) => Err(self.give_up(GivenUp::Memory)),
        }
    }

    /// A turn begins, so long after the loop began.
    pub(crate) fn note_turn(&mut self, now: Duration)
        ensures keeps { (numbers : List ℕ → Option ℕ) → Keeps numbers (allows S.allowed) self.old self.new }
        ensures stage { self.new.intake.stage ≡ self.old.intake.stage }
        ensures waiting { self.new.waiting.items ≡ self.old.waiting.items }
        ensures unsent { unsent self.new ≡ unsent self.old }
        ensures window { self.new.window.tickets ≡ self.old.window.tickets }
    {
        self.marks.note_turn(now);
    }

    /// The client told its end.
    pub(crate) fn end(&mut self)
        ensures keeps { (numbers : List ℕ → Option ℕ) → Keeps numbers (allows S.allowed) self.old self.new }
        ensures told { self.new.intake.stage ≡ told self.old.intake.stage }
        ensures waiting { self.new.waiting.items ≡ self.old.waiting.items }
        ensures unsent { unsent self.new ≡ unsent self.old }
        ensures window { self.new.window.tickets ≡ self.old.window.tickets }
    {
        self.intake.end();
    }

    /// No ticket joins one that waits, until replies were put.
    pub(crate) fn narrow(&mut self)
        ensures keeps { (numbers : List ℕ → Option ℕ) → Keeps numbers (allows S.allowed) self.old self.new }
        ensures stage { self.new.intake.stage ≡ self.old.intake.stage }
        ensures waiting { self.new.waiting.items ≡ self.old.waiting.items }
        ensures unsent { unsent self.new ≡ unsent self.old }
        ensures window { self.new.window.tickets ≡ 1 }
    {
        self.window = Window::new();
    }

    /// The first bytes that are to be sent: some, where there are any.
    pub(crate) fn output(&self) -> &[u8]
        ensures lent { result.now ≡ lent self.now }
        ensures front { IsFrontOf (lent self.now) (unsent self.now) }
    {
        self.outgoing.out.front()
    }

    /// The bytes behind the output, as far as they lie together.
    pub(crate) fn output_behind(&self) -> &[u8]
        ensures lent { result.now ≡ lent_behind self.now }
        ensures begins { BeginsWithBoth (lent self.now) (lent_behind self.now) (unsent self.now) }
    {
        self.outgoing.out.second()
    }

    /// The first `n` bytes of the output, and of what lies behind it, were sent.
    pub(crate) fn sent(&mut self, n: usize)
        requires { n ≤ length (lent self.old) + length (lent_behind self.old) }
        ensures upholds { Sends (allows S.allowed) self.old self.new (take n (unsent self.old)) }
        ensures stage { self.new.intake.stage ≡ self.old.intake.stage }
        ensures waiting { self.new.waiting.items ≡ self.old.waiting.items }
        ensures window { self.new.window.tickets ≡ self.old.window.tickets }
    {
        self.outgoing.out.drop_front(n);
    }

    /// Gives up, and says why: tickets that wait get no reply.
    pub(crate) fn give_up(&mut self, why: GivenUp) -> GivenUp
        ensures why { result ≡ why }
        ensures upholds { GivesUp (allows S.allowed) self.old self.new }
        ensures stage { IsGivenUpFor self.new.intake.stage why }
        ensures window { self.new.window.tickets ≡ self.old.window.tickets }
    {
        self.intake.give_up(why);
        self.waiting.clear();
        self.waits_for_job = false;
        why
    }

    /// How many bytes it holds for the client: those that are to be sent, and those that came for the tickets that wait.
    pub(crate) fn held(&self) -> usize
        ensures { Holds (unsent self.now) self.now.waiting.items result }
    {
        with_came(self.outgoing.out.len(), &self.waiting)
    }

    /// Whether no more bytes come or are to be sent, and no ticket waits.
    pub(crate) fn is_over(&self) -> bool
        ensures { result ≡ is_over self.now }
    {
        !self.intake.is_judging() && self.waiting.is_empty() && self.outgoing.out.is_empty()
    }

    /// The law of exchanges: what was sent is a front of all replies to what came, under allowed answers. And it holds
    /// little.
    pub(crate) fn law(&self, names: &HeadNames<'_, S>)
        ensures sent { SaysSent (S.number_of names.now) (allows S.allowed) (allows S.allowed) self.now }
        ensures little { SaysLittle (S.number_of names.now) (allows S.allowed) self.now }
    {
        let _ = &self.intake;
        let _ = names;
    }
}

impl<S: FunctionalSource> ExchangeState<S> {
    ghost use Rattle.std.specs.Prelude.{ℕ, List, []};
    ghost use Rattle.peer_wish.specs.Allowed.{only, allows};
    ghost use Rattle.peer_exchange.specs.ExchangeStates.{SaysSent};

    /// The law, where each group and key has one answer: there is one list of replies.
    pub(crate) fn law_functional(&self)
        ensures { SaysSent S.the_number (allows S.allowed) (only S.the_answer) self.now }
    {
        let _ = &self.intake;
    }
}
