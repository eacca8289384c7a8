//! A source that may be missing.
ghost use Rattle.peer_groups.specs.Maybes.{AllowsMaybe, AnswersMaybe, count_maybe, number_maybe};
ghost use Rattle.peer_groups.specs.Maybes.{maybe_answered, maybe_limited, maybe_numbered, maybe_within};

use peer_source::{GetFault, GetResult, GroupId, Source};
use peer_view::AllocSink;
use std::alloc::Global;

/// A source that may be missing: then it has no groups.
#[derive(Drop)]
pub struct Maybe<S> {
    pub source: Option<S>,
}

impl<S: Source + Send + Sync> Source for Maybe<S> {
    ghost answers = { λ s. AnswersMaybe S.answers s.source };

    ghost allowed = { AllowsMaybe S.allowed };

    ghost count = { λ s. count_maybe S.count s.source };

    ghost number_of = { λ s. number_maybe S.number_of s.source };

    fn group_count(&self) -> usize {
        match &self.source {
            Some(source) => source.group_count(),
            None => 0,
        }
    }

    fn group(&self, name: &[u8]) -> Option<GroupId> {
        match &self.source {
            Some(source) => source.group(name),
            None => None,
        }
    }

    fn get(&self, alloc: Global, group: GroupId, key: &[u8], sink: &mut AllocSink) -> GetResult {
        match &self.source {
            Some(source) => source.get(alloc, group, key, sink),
            None => Err(GetFault::with_text(alloc, b"no such group")),
        }
    }

    ghost within = { λ s g k a h. maybe_within S.answers S.allowed S.within s.source g k a h };

    ghost limited = { λ g k a h. maybe_limited S.answers S.allowed S.limited g k a h };

    ghost answered = { λ s g k. maybe_answered S.answers S.allowed S.answered s.source g k };

    ghost numbered = { λ s name i e. maybe_numbered S.count S.number_of S.numbered s.source name i e };
}
