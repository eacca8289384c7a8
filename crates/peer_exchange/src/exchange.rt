//! A connection as a state, without input or output: bytes come, replies go, and no call waits for the client.
//!
//! It stands on the state of an exchange and on two histories that only contracts see: the bytes that came and those that
//! were sent. It promises, at every moment, that the bytes that were sent are a front of the replies to the bytes that
//! came; and once it is over, which replies they are.
ghost use Rattle.std.specs.Prelude.{◌≡◌, ◌≤◌, ◌+◌, [], ◌++◌, length, take};
ghost use Rattle.peer_wish.specs.Allowed.{allows};
ghost use Rattle.peer_exchange.specs.ExchangeStates.{Upholds};

use crate::exchange_state::ExchangeState;
use crate::intake::GivenUp;
use crate::marks::Marks;
use crate::reply_notes::ReplyNotes;
use crate::rest::Rest;
use peer_fill::{ConnSeat, Pool};
use peer_source::{FunctionalSource, GroupId, Names, Source};
use peer_view::History;
use peer_wish::{End, HeadNames};
use std::alloc::Global;
use std::net::SocketAddr;
use std::sync::Wait;
use std::sync::ledger::Ledger;
use std::time::Duration;

/// A connection to the groups of a source.
#[derive(Drop)]
pub struct Exchange<'p, S: Source> {
    names: HeadNames<'p, S>,
    pub(crate) state: ExchangeState<S>,
    pub(crate) came: History,
    pub(crate) sent: History,
    ghost upholds: { ∥ Upholds (S.number_of names) (allows S.allowed) came.bytes sent.bytes [] state ∥₁ },
}

// The bytes of a history, and the first `n` of these behind them.
fn and_first(history: &History, n: usize, first: &[u8], second: &[u8]) -> History
    requires { n ≤ length first.now + length second.now }
    ensures { result.bytes ≡ history.now.bytes ++ take n (first.now ++ second.now) }
{
    if n <= first.len() {
        history.and(&first[..n])
    } else {
        history.and(first).and(&second[..n - first.len()])
    }
}

impl<'p, S: Source> Exchange<'p, S> {
    ghost use Rattle.std.specs.Prelude.{◌≡◌, ◌≤◌, ◌+◌, true, [], ◌++◌, length, min, option_map, take, Some, IfErr, IfOk, IfSome, OnOk};
    ghost use Rattle.peer_fill.specs.Claiming.{KeepsSeat};
    ghost use Rattle.peer_fill.specs.Pools.{source_of, IsConnSeatOf};
    ghost use Rattle.peer_fill.specs.Seats.{asks_of, left_of};
    ghost use Rattle.peer_wish.specs.Allowed.{allows};
    ghost use Rattle.peer_exchange.specs.AnsweringReady.{AnswersReady, IsAnsweredThrough};
    ghost use Rattle.peer_exchange.specs.Asking.{AddsTickets};
    ghost use Rattle.peer_exchange.specs.ExchangeEnds.{IsEnd, IsEndAt};
    ghost use Rattle.peer_exchange.specs.ExchangeStates.{AreSent, HoldsLittle, is_over, lent, lent_behind, room_of};
    ghost use Rattle.peer_exchange.specs.ExchangeStates.{takes_bytes, unsent};
    ghost use Rattle.peer_outbox.specs.Outboxes.{BeginsWithBoth, IsFrontOf};
    ghost use Rattle.peer_exchange.specs.Histories.{Came, KeepsHistories};
    ghost use Rattle.peer_exchange.specs.Holdings.{Holds};
    ghost use Rattle.peer_exchange.specs.Intakes.{GoesOn, IsGivenUpFor, told};
    ghost use Rattle.peer_exchange.specs.Rests.{RestsAt, first_flight, first_group, rest_of};

    /// No byte came, and none was sent. It takes no memory yet.
    pub fn new(alloc: Global, names: Names<'p, S>) -> Exchange<'p, S>
        ensures names { result.names ≡ names.entry }
        ensures came { result.came.bytes ≡ [] }
        ensures sent { result.sent.bytes ≡ [] }
        ensures open { takes_bytes result.state ≡ true }
        ensures none { (result.state.waiting.items ≡ []) × (unsent result.state ≡ []) }
        ensures window { result.state.window.tickets ≡ 1 }
    {
        Exchange {
            names: HeadNames::new(names),
            state: ExchangeState::new(alloc, Marks::none()),
            came: History::none(),
            sent: History::none(),
        }
    }

    /// The same of a client at this address, whose replies have records for an access log. None has one where memory is refused.
    pub fn recorded(
        alloc: Global,
        names: Names<'p, S>,
        client: Option<SocketAddr>,
    ) -> Exchange<'p, S>
        ensures names { result.names ≡ names.entry }
        ensures came { result.came.bytes ≡ [] }
        ensures sent { result.sent.bytes ≡ [] }
        ensures open { takes_bytes result.state ≡ true }
        ensures none { (result.state.waiting.items ≡ []) × (unsent result.state ≡ []) }
        ensures window { result.state.window.tickets ≡ 1 }
    {
        Exchange {
            names: HeadNames::new(names),
            state: ExchangeState::new(alloc, Marks::of(alloc, client)),
            came: History::none(),
            sent: History::none(),
        }
    }

    /// A turn begins, so long after the loop began: the time that records have of what comes and is put in it.
    pub fn note_turn(&mut self, now: Duration)
        ensures histories { KeepsHistories self.old self.new }
        ensures stage { self.new.state.intake.stage ≡ self.old.state.intake.stage }
        ensures waiting { self.new.state.waiting.items ≡ self.old.state.waiting.items }
        ensures unsent { unsent self.new.state ≡ unsent self.old.state }
        ensures window { self.new.state.window.tickets ≡ self.old.state.window.tickets }
    {
        self.state.note_turn(now);
    }

    /// The law: what was sent is a front of all replies to what came, each once, in request order, and nothing behind a
    /// closing one. And the exchange holds little: one head, 64 tickets, and less than 64 KiB of replies and one reply.
    pub fn law(&self)
        ensures sent { ∥ AreSent (S.number_of self.now.names) (allows S.allowed) self.now.came.bytes self.now.sent.bytes ∥₁ }
        ensures little { ∥ HoldsLittle (S.number_of self.now.names) (allows S.allowed) self.now.came.bytes self.now.sent.bytes
            self.now.state ∥₁ }
    {
        self.state.law(&self.names);
    }

    /// Whether bytes may come: the client's end did not, nor a request that closes, and it was not given up.
    pub fn takes_bytes(&self) -> bool
        ensures { result ≡ takes_bytes self.now.state }
    {
        self.state.takes_bytes()
    }

    /// How many bytes have room: those of one head, less what is held.
    pub fn room(&self) -> usize
        ensures { result ≡ room_of self.now.state }
    {
        self.state.room()
    }

    /// As many of the bytes come as there is room for. How many. Where memory is refused none come, and it is given up.
    pub fn receive(&mut self, bytes: &[u8]) -> Result<usize, GivenUp>
        requires { takes_bytes self.old.state ≡ true }
        ensures count { IfOk result (λ n. n ≡ min (length bytes.now) (room_of self.old.state)) }
        ensures names { self.new.names ≡ self.old.names }
        ensures came { Came self.old.came.bytes self.new.came.bytes bytes.now result }
        ensures sent { self.new.sent.bytes ≡ self.old.sent.bytes }
        ensures goes_on { OnOk result (takes_bytes self.new.state ≡ true) }
        ensures given_up { IfErr result (IsGivenUpFor self.new.state.intake.stage) }
        ensures window { self.new.state.window.tickets ≡ self.old.state.window.tickets }
    {
        let n = self.state.receive(bytes)?;
        let came = self.came.and(&bytes[..n]);
        self.came = came;
        Ok(n)
    }

    /// The client told its end.
    pub fn end(&mut self)
        ensures histories { KeepsHistories self.old self.new }
        ensures told { self.new.state.intake.stage ≡ told self.old.state.intake.stage }
        ensures waiting { self.new.state.waiting.items ≡ self.old.state.waiting.items }
        ensures unsent { unsent self.new.state ≡ unsent self.old.state }
        ensures window { self.new.state.window.tickets ≡ self.old.state.window.tickets }
    {
        self.state.end();
    }

    /// Sets the window back to one ticket, as for a new client. Tickets that wait stay: a client for which none does then holds one
    /// value at most, and not 64.
    pub fn narrow(&mut self)
        ensures histories { KeepsHistories self.old self.new }
        ensures stage { self.new.state.intake.stage ≡ self.old.state.intake.stage }
        ensures waiting { self.new.state.waiting.items ≡ self.old.state.waiting.items }
        ensures unsent { unsent self.new.state ≡ unsent self.old.state }
        ensures window { self.new.state.window.tickets ≡ 1 }
    {
        self.state.narrow();
    }

    /// The first bytes that are to be sent: some, where there are any. Short replies lie together, and a long value is lent
    /// from where its fill has it.
    pub fn output(&self) -> &[u8]
        ensures lent { result.now ≡ lent self.now.state }
        ensures front { IsFrontOf (lent self.now.state) (unsent self.now.state) }
    {
        self.state.output()
    }

    /// The bytes behind the output, as far as they lie together: a stream can take both by one call.
    pub fn output_behind(&self) -> &[u8]
        ensures lent { result.now ≡ lent_behind self.now.state }
        ensures begins { BeginsWithBoth (lent self.now.state) (lent_behind self.now.state) (unsent self.now.state) }
    {
        self.state.output_behind()
    }

    /// The first `n` bytes of the output, and of what lies behind it, were sent.
    pub fn sent(&mut self, n: usize)
        requires { n ≤ length (lent self.old.state) + length (lent_behind self.old.state) }
        ensures names { self.new.names ≡ self.old.names }
        ensures came { self.new.came.bytes ≡ self.old.came.bytes }
        ensures sent { self.new.sent.bytes ≡ self.old.sent.bytes ++ take n (unsent self.old.state) }
        ensures stage { self.new.state.intake.stage ≡ self.old.state.intake.stage }
        ensures waiting { self.new.state.waiting.items ≡ self.old.state.waiting.items }
        ensures window { self.new.state.window.tickets ≡ self.old.state.window.tickets }
    {
        let (output, behind) = (self.state.output(), self.state.output_behind());
        let sent = and_first(&self.sent, n, output, behind);
        self.state.sent(n);
        self.sent = sent;
    }

    /// Judges what is held, and asks the pool, as far as few tickets and few unsent bytes wait and the seat can ask.
    /// What would let it go on. It never waits.
    pub fn ask_held<L: Ledger, H: Wait>(
        &mut self,
        rt: &H,
        pool: &Pool<S, L>,
        seat: &mut ConnSeat<S, L>,
    ) -> Result<Rest, GivenUp>
        requires seat { IsConnSeatOf pool.now seat.old }
        requires names { self.old.names ≡ source_of pool.now }
        ensures seat { KeepsSeat pool.now seat.old seat.new }
        ensures histories { KeepsHistories self.old self.new }
        ensures tickets { AddsTickets self.old.state self.new.state (asks_of seat.old) (asks_of seat.new) result }
        ensures rest { IfOk result (RestsAt self.new.state (left_of seat.new)) }
        ensures goes_on { GoesOn self.old.state.intake.stage self.new.state.intake.stage result }
        ensures window { self.new.state.window.tickets ≡ self.old.state.window.tickets }
    {
        match self.state.ask_held(rt, pool, seat, &mut self.names) {
            Ok(()) => Ok(self.state.rest()),
            Err(why) => Err(why),
        }
    }

    /// Puts the replies of the first tickets, as far as their fills are there and few bytes wait to be sent, and notes
    /// them. Where a fill is of another group or key than was asked for, the source is called here, and may take its time.
    pub fn answer_ready<L: Ledger>(
        &mut self,
        pool: &Pool<S, L>,
        seat: &mut ConnSeat<S, L>,
        notes: &mut ReplyNotes,
    ) -> Result<(), GivenUp>
        requires { IsConnSeatOf pool.now seat.old }
        ensures seat { KeepsSeat pool.now seat.old seat.new }
        ensures histories { KeepsHistories self.old self.new }
        ensures answers { AnswersReady self.old.state self.new.state (asks_of seat.old) (asks_of seat.new) result }
        ensures through { OnOk result (IsAnsweredThrough self.new.state) }
        ensures stage { OnOk result (self.new.state.intake.stage ≡ self.old.state.intake.stage) }
        ensures given_up { IfErr result (IsGivenUpFor self.new.state.intake.stage) }
    {
        self.state.answer_ready(pool, seat, notes)
    }

    /// What would let it go on, once what it holds was judged by `ask_held`. Behind `answer_ready` and `sent`, which make room, more of
    /// it may have to be judged first.
    pub fn rest(&self) -> Rest
        ensures { result ≡ rest_of self.now.state }
    {
        self.state.rest()
    }

    /// The number of the flight that the first ticket waits for, none where no ticket waits, or the first waits for no fill.
    pub fn awaits(&self) -> Option<u64>
        ensures { IfSome result (λ number. first_flight self.now.state.waiting.items ≡ Some number) }
    {
        self.state.awaits()
    }

    /// The group that the first ticket asks for, none where no ticket waits, or the first gets no value.
    pub fn first_group(&self) -> Option<GroupId>
        ensures { option_map (λ group. group.number) result ≡ first_group self.now.state.waiting.items }
    {
        self.state.first_group()
    }

    /// How many bytes it holds for the client, beside those that came and are not judged: those that are to be sent, and
    /// those of the values and texts that came for the tickets that wait.
    pub fn held(&self) -> usize
        ensures { Holds (unsent self.now.state) self.now.state.waiting.items result }
    {
        self.state.held()
    }

    /// Whether no more bytes come or are to be sent, and no ticket waits.
    pub fn is_over(&self) -> bool
        ensures { result ≡ is_over self.now.state }
    {
        self.state.is_over()
    }

    /// How it ended, none where it is not over. `Clean`: all of what came was answered, or all up to a closing request.
    /// `Cut`: all whole heads were, and the client's end came inside another. `Memory` and `Worn`: it was given up behind whole replies
    /// to the first requests.
    pub fn ended(&self) -> Option<End>
        ensures ends { ∥ IsEnd (S.number_of self.now.names) (allows S.allowed) self.now.came.bytes self.now.sent.bytes
            self.now.state result ∥₁ }
        ensures stage { IfSome result (IsEndAt self.now.state.intake.stage) }
    {
        self.state.ended()
    }
}

impl<'p, S: FunctionalSource> Exchange<'p, S> {
    ghost use Rattle.std.specs.Prelude.{IfSome};
    ghost use Rattle.peer_wish.specs.Allowed.{only};
    ghost use Rattle.peer_exchange.specs.ExchangeEnds.{IsEnd, IsEndAt};
    ghost use Rattle.peer_exchange.specs.ExchangeStates.{AreSent};

    /// The law, where each group and key has one answer: there is one list of replies.
    pub fn law_functional(&self)
        ensures { ∥ AreSent S.the_number (only S.the_answer) self.now.came.bytes self.now.sent.bytes ∥₁ }
    {
        self.state.law_functional();
    }

    /// How it ended, where each group and key has one answer.
    pub fn ended_functional(&self) -> Option<End>
        ensures ends { ∥ IsEnd S.the_number (only S.the_answer) self.now.came.bytes self.now.sent.bytes self.now.state result ∥₁ }
        ensures stage { IfSome result (IsEndAt self.now.state.intake.stage) }
    {
        self.state.ended_functional()
    }
}
