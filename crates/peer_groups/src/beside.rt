//! Two sources as one.
ghost use Rattle.std.specs.Prelude.{◌≡◌, ◌+◌, ◌^◌, ◌<◌};
ghost use Rattle.peer_groups.specs.Besides.{AllowsEither, AnswersEither, number_either};
ghost use Rattle.peer_groups.specs.Besides.{either_answered, either_limited, either_numbered, either_within};

use peer_source::{GetResult, GroupId, Source};
use peer_view::AllocSink;
use std::alloc::Global;

/// Two sources beside one another: the groups of the first, and behind them those of the second. A name that both have is
/// the first's.
#[derive(Drop)]
pub struct Beside<A: Source, B: Source> {
    first: A,
    second: B,
    ghost fits: { A.count first + B.count second < 2 ^ 64 },
}

impl<A: Source, B: Source> Beside<A, B> {
    /// These two, or none where they have too many groups to count.
    pub fn new(first: A, second: B) -> Option<Beside<A, B>> {
        let _count = first.group_count().checked_add(second.group_count())?;
        Some(Beside { first, second })
    }

    /// The first of them.
    pub fn first(&self) -> &A
        ensures { result.now ≡ self.now.first }
    {
        &self.first
    }

    /// The second of them.
    pub fn second(&self) -> &B
        ensures { result.now ≡ self.now.second }
    {
        &self.second
    }
}

impl<A: Source + Send + Sync, B: Source + Send + Sync> Source for Beside<A, B> {
    ghost answers = { λ s. AnswersEither (A.count s.first) (A.answers s.first) (B.answers s.second) };

    ghost allowed = { AllowsEither A.allowed B.allowed };

    ghost count = { λ s. A.count s.first + B.count s.second };

    ghost number_of = { λ s name. number_either (A.count s.first) (A.number_of s.first name) (B.number_of s.second name) };

    fn group_count(&self) -> usize {
        self.first.group_count() + self.second.group_count()
    }

    fn group(&self, name: &[u8]) -> Option<GroupId> {
        match self.first.group(name) {
            Some(group) => Some(group),
            None => {
                let group = self.second.group(name)?;
                Some(GroupId {
                    number: self.first.group_count() + group.number,
                })
            }
        }
    }

    fn get(&self, alloc: Global, group: GroupId, key: &[u8], sink: &mut AllocSink) -> GetResult {
        let count = self.first.group_count();
        if group.number < count {
            self.first.get(alloc, group, key, sink)
        } else {
            let behind = GroupId {
                number: group.number - count,
            };
            self.second.get(alloc, behind, key, sink)
        }
    }

    ghost within = { λ s g k a h. either_within (A.count s.first) (A.answers s.first) (B.answers s.second) A.allowed B.allowed
        (A.within s.first) (B.within s.second) g k a h };

    ghost limited = { λ g k a h. either_limited 0 A.allowed B.allowed A.allowed B.allowed A.limited B.limited g k a h };

    ghost answered = { λ s g k. either_answered (A.count s.first) (A.answers s.first) (B.answers s.second) A.allowed B.allowed
        (A.answered s.first) (B.answered s.second) g k };

    ghost numbered = { λ s name i e. either_numbered (A.count s.first) (B.count s.second)
        (A.number_of s.first name) (B.number_of s.second name) (A.numbered s.first name) (B.numbered s.second name) i e };
}
