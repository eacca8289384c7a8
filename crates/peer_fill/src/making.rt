//! How a worker comes by the fill of a job: a cache keeps its value by then, or the source is called.
//!
//! It stands on the caches and fills of `peer_source`. It promises a fill of the group and the key that were asked for: a
//! value that a cache kept for them, or what the source may answer.
ghost use Rattle.std.specs.Prelude.{◌≡◌, ◌<◌, ◌^◌, [], IfNone, IfSome};

use crate::counts::FillCounts;
use crate::pool::Pool;
use peer_source::{Evicted, Fill, GroupId, Source};
use peer_view::ByteView;
use std::alloc::Global;
use std::sync::Wait;
use std::sync::ledger::Ledger;

/// The fill of a job, by how a worker came by it.
#[derive(Drop)]
pub(crate) enum Made<S: Source> {
    /// The source was called.
    Called(Fill<S>),
    /// The value was in the cache by then.
    Rehit(Fill<S>),
}

impl<S: Source> Made<S> {
    ghost use Rattle.peer_fill.specs.Works.{fill_made};

    /// The fill, however it was made.
    pub(crate) fn into_fill(self) -> Fill<S>
        ensures { result ≡ fill_made self }
    {
        match self {
            Made::Called(fill) => fill,
            Made::Rehit(fill) => fill,
        }
    }
}

impl FillCounts {
    ghost use Rattle.peer_fill.specs.Counts.{taken_of};
    ghost use Rattle.peer_fill.specs.Works.{CountsMade};

    /// One job more, whose fill was made so.
    pub(crate) fn count<S: Source>(&mut self, made: &Made<S>)
        requires { taken_of self.old < 2 ^ 56 }
        ensures { CountsMade made.now self.old self.new }
    {
        match made {
            Made::Called(_) => self.calls += 1,
            Made::Rehit(_) => self.rehits += 1,
        }
    }
}

impl<S: Source, L: Ledger> Pool<S, L> {
    ghost use Rattle.peer_fill.specs.Caches.{IsFoundFor};
    ghost use Rattle.peer_fill.specs.Pools.{source_of};
    ghost use Rattle.peer_fill.specs.Works.{IsMadeFor, call_count};
    ghost use Rattle.peer_fill.specs.declared.making.Made.TheVariants.{Rehit};

    /// The fill of the value that the group's cache keeps for the key. Where memory refuses it, there is none.
    pub(crate) fn cached_fill<R: Wait>(
        &self,
        rt: &R,
        group: GroupId,
        key: &ByteView,
    ) -> Option<Fill<S>>
        ensures { IfSome result (IsFoundFor group.number key.now) }
    {
        match self.caches.get(rt, group, key.as_slice()) {
            Ok(found) => found,
            Err(_) => None,
        }
    }

    /// The fill that a cache keeps, where it keeps one, and else what a call of the source gives.
    pub(crate) fn make(
        &self,
        alloc: Global,
        kept: Option<Fill<S>>,
        group: GroupId,
        key: ByteView,
    ) -> Made<S>
        requires { IfSome kept (IsFoundFor group.number key) }
        ensures made { IsMadeFor (S.answers (source_of self.now)) group.number key result }
        ensures kept { IfSome kept (λ fill. result ≡ Rehit fill) }
        ensures none { IfNone kept (call_count result ≡ 1) }
    {
        if let Some(fill) = kept {
            return Made::Rehit(fill);
        }
        Made::Called(Fill::run(alloc, &self.source, group, key))
    }

    /// Keeps a value that the source gave, unless memory refuses that.
    pub(crate) fn keep_made<R: Wait>(&self, rt: &R, made: &Made<S>, evicted: &mut Evicted)
        requires { evicted.old.items ≡ [] }
        ensures { evicted.new.items ≡ [] }
    {
        if let Made::Called(fill) = made {
            self.caches.keep(rt, fill, evicted);
        }
    }
}
