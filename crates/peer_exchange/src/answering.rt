//! Answering the tickets that wait, the first of them first.
//!
//! It stands on the outgoing replies of a connection. It promises a reply for each of the first tickets, up to one that waits on
//! a flight or much output, and that no more strangers are counted than tickets of flights were answered.
ghost use Rattle.std.specs.Prelude.{◌≡◌, ◌-◌, drop};
ghost use Rattle.std.specs.VecDeque.{deque_len};

use crate::exchange_state::ExchangeState;
use crate::intake::GivenUp;
use crate::outgoing::Answered;
use crate::reply_notes::ReplyNotes;
use peer_fill::{ConnSeat, Pool};
use peer_source::Source;
use peer_wish::Ticket;
use std::alloc::AllocError;
use std::collections::VecDeque;
use std::sync::ledger::Ledger;

// How many tickets have room that is kept while none waits.
const KEPT_TICKETS: usize = 4;

// Drops the first ticket.
fn drop_first<S: Source>(waiting: &mut VecDeque<Ticket<S>>)
    ensures items { waiting.new.items ≡ drop 1 waiting.old.items }
    ensures len { deque_len waiting.new ≡ deque_len waiting.old - 1 }
{
    let _answered = waiting.pop_front();
    if waiting.is_empty() && waiting.capacity() > KEPT_TICKETS {
        waiting.shrink_to_fit();
    }
}

impl<S: Source> ExchangeState<S> {
    ghost use Rattle.std.specs.Prelude.{◌≡◌, ℕ, List, Option, IfErr, OnOk};
    ghost use Rattle.peer_fill.specs.Claiming.{KeepsSeat};
    ghost use Rattle.peer_fill.specs.Pools.{IsConnSeatOf};
    ghost use Rattle.peer_fill.specs.Seats.{asks_of};
    ghost use Rattle.peer_wish.specs.Allowed.{allows};
    ghost use Rattle.peer_exchange.specs.AnsweringReady.{AnswersReady, AnswersFirst, IsAnsweredThrough};
    ghost use Rattle.peer_exchange.specs.ExchangeStates.{Keeps};
    ghost use Rattle.peer_exchange.specs.Intakes.{IsGivenUpFor};

    /// Puts the replies of the first tickets, as far as their fills are there and few bytes wait to be sent, and notes them.
    pub(crate) fn answer_ready<L: Ledger>(
        &mut self,
        pool: &Pool<S, L>,
        seat: &mut ConnSeat<S, L>,
        notes: &mut ReplyNotes,
    ) -> Result<(), GivenUp>
        requires { IsConnSeatOf pool.now seat.old }
        ensures seat { KeepsSeat pool.now seat.old seat.new }
        ensures keeps { (numbers : List ℕ → Option ℕ) → Keeps numbers (allows S.allowed) self.old self.new }
        ensures answers { AnswersReady self.old self.new (asks_of seat.old) (asks_of seat.new) result }
        ensures through { OnOk result (IsAnsweredThrough self.new) }
        ensures stage { OnOk result (self.new.intake.stage ≡ self.old.intake.stage) }
        ensures given_up { IfErr result (IsGivenUpFor self.new.intake.stage) }
    {
        loop {
            match self.answer_first(pool, seat, notes) {
                Ok(Answered::Put { .. }) => {}
                Ok(Answered::Waits) => return Ok(()),
                Err(why) => return Err(why),
            }
        }
    }

    // Puts the reply of the first ticket, where its fill is there and little output waits, notes it, and counts a stranger
    // where it was refilled. `Waits` also where there is no ticket.
    fn answer_first<L: Ledger>(
        &mut self,
        pool: &Pool<S, L>,
        seat: &mut ConnSeat<S, L>,
        notes: &mut ReplyNotes,
    ) -> Result<Answered, GivenUp>
        requires { IsConnSeatOf pool.now seat.old }
        ensures seat { KeepsSeat pool.now seat.old seat.new }
        ensures keeps { (numbers : List ℕ → Option ℕ) → Keeps numbers (allows S.allowed) self.old self.new }
        ensures answers { AnswersFirst self.old self.new (asks_of seat.old) (asks_of seat.new) result }
    {
        if self.has_much_output() {
            return Ok(Answered::Waits);
        }
        let Some(ticket) = self.waiting.front() else {
            return Ok(Answered::Waits);
        };
        let before = self.outgoing.out.len();
        match self.outgoing.answer(pool, ticket) {
            Ok(Answered::Put { refilled }) => {
                seat.add_strangers(u64::from(refilled));
                let put = self.outgoing.out.len() - before;
                let content = put.saturating_sub(self.outgoing.head_len());
                notes.note(&ticket.body, self.marks.take(), content);
                drop_first(&mut self.waiting);
                self.window.put(put);
                Ok(Answered::Put { refilled })
            }
            Ok(Answered::Waits) => Ok(Answered::Waits),
            Err(AllocError) => Err(self.give_up(GivenUp::Memory)),
        }
    }
}
