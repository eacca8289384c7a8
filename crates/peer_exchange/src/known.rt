//! The law and the end of a connection to a source that is known by its answers: the replies are those that this source may
//! give.

use crate::exchange::Exchange;
use peer_known::{Known, Relation};
use peer_source::Source;
use peer_wish::End;

impl<'p, S: Source + Send + Sync, W: Relation + Send + Sync> Exchange<'p, Known<S, W>> {
    ghost use Rattle.std.specs.Prelude.{IfSome};
    ghost use Rattle.peer_wish.specs.Allowed.{allows};
    ghost use Rattle.peer_exchange.specs.ExchangeEnds.{IsEnd, IsEndAt};
    ghost use Rattle.peer_exchange.specs.ExchangeStates.{AreSent};

    /// The law, of the source itself: each reply that shows an answer shows one that this very source may give to that group and
    /// key.
    pub fn law_known(&self)
        ensures { ∥ AreSent (S.number_of self.now.names.source) (allows (S.answers self.now.names.source)) self.now.came.bytes
            self.now.sent.bytes ∥₁ }
    {
        self.law();
    }

    /// How it ended, under the answers that this very source may give.
    pub fn ended_known(&self) -> Option<End>
        ensures ends { ∥ IsEnd (S.number_of self.now.names.source) (allows (S.answers self.now.names.source)) self.now.came.bytes
            self.now.sent.bytes self.now.state result ∥₁ }
        ensures stage { IfSome result (IsEndAt self.now.state.intake.stage) }
    {
        self.ended()
    }
}
