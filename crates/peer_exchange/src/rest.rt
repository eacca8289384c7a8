//! What would let an exchange go on, and how it ended.
//!
//! It stands on the state of an exchange. It promises what its answers say of the state.
ghost use Rattle.std.specs.Prelude.{◌≡◌};

use crate::exchange_state::ExchangeState;
use crate::intake::{GivenUp, Stage};
use peer_flight::Claim;
use peer_source::{FunctionalSource, GroupId, Source};
use peer_wish::{Body, End};

/// What would let an exchange go on, once what it holds was judged. Where it is nothing, the exchange is over.
#[derive(Clone, Copy, Debug, PartialEq, Eq)]
pub struct Rest {
    /// More bytes, or the client's end.
    pub bytes: bool,
    /// The fill of the first ticket.
    pub fill: bool,
    /// That output is sent.
    pub output: bool,
    /// That the seat puts the job that is left with it (`Pool::put_left`).
    pub job: bool,
}

impl<S: Source> ExchangeState<S> {
    ghost use Rattle.std.specs.Prelude.{◌≡◌, ℕ, List, [], Option, Some, IfSome, option_map};
    ghost use Rattle.peer_wish.specs.Allowed.{allows};
    ghost use Rattle.peer_exchange.specs.Rests.{first_flight, first_group, rest_of};
    ghost use Rattle.peer_exchange.specs.ExchangeEnds.{IsEndAt, SaysEnd};

    /// What would let it go on, once what is held was judged.
    pub(crate) fn rest(&self) -> Rest
        ensures { result ≡ rest_of self.now }
    {
        Rest {
            bytes: self.takes_bytes() && !self.is_full() && !self.waits_for_job,
            fill: !self.waiting.is_empty() && !self.has_much_output(),
            output: !self.outgoing.out.is_empty(),
            job: self.waits_for_job,
        }
    }

    /// The number of the flight that the first ticket waits for, none where no ticket waits, or the first waits for no fill.
    pub(crate) fn awaits(&self) -> Option<u64>
        ensures { IfSome result (λ number. first_flight self.now.waiting.items ≡ Some number) }
    {
        let Body::Claim(Claim::Pending(flight)) = &self.waiting.front()?.body else {
            return None;
        };
        let mut note = flight.note();
        match flight.look(&mut note) {
            Some(_) => None,
            None => Some(flight.number()),
        }
    }

    /// The group that the first ticket asks for, none where no ticket waits, or the first gets no value.
    pub(crate) fn first_group(&self) -> Option<GroupId>
        ensures { option_map (λ group. group.number) result ≡ first_group self.now.waiting.items }
    {
        match &self.waiting.front()?.body {
            Body::Claim(claim) => Some(claim.group()),
            Body::Fault(_) => None,
        }
    }

    /// How it ended, none where it is not over.
    pub(crate) fn ended(&self) -> Option<End>
        ensures ends { (numbers : List ℕ → Option ℕ) → SaysEnd numbers (allows S.allowed) (allows S.allowed) self.now result }
        ensures stage { IfSome result (IsEndAt self.now.intake.stage) }
    {
        if !self.is_over() {
            return None;
        }
        match self.intake.stage {
            Stage::Open | Stage::Told => None,
            Stage::Ended if self.intake.holds_only_pairs() => Some(End::Clean),
            Stage::Ended => Some(End::Cut),
            Stage::Closed => Some(End::Clean),
            Stage::GivenUp(GivenUp::Memory) => Some(End::Memory),
            Stage::GivenUp(GivenUp::Worn) => Some(End::Worn),
        }
    }
}

impl<S: FunctionalSource> ExchangeState<S> {
    ghost use Rattle.std.specs.Prelude.{ℕ, List, [], IfSome};
    ghost use Rattle.peer_wish.specs.Allowed.{only, allows};
    ghost use Rattle.peer_exchange.specs.ExchangeEnds.{IsEndAt, SaysEnd};

    /// How it ended, where each group and key has one answer.
    pub(crate) fn ended_functional(&self) -> Option<End>
        ensures ends { SaysEnd S.the_number (allows S.allowed) (only S.the_answer) self.now result }
        ensures stage { IfSome result (IsEndAt self.now.intake.stage) }
    {
        self.ended()
    }
}
