//! A source whose answers its type names, so that the type allows what this source may answer and nothing else.
ghost use Rattle.std.specs.Prelude.{◌≡◌, ℕ, List};
ghost use Rattle.peer_source.specs.Answers.{Answer};
ghost use Rattle.peer_known.specs.Names.{AllowsNamed, IsNamed, named_within};

use peer_source::{GetResult, GroupId, Source};
use peer_view::AllocSink;
use std::alloc::Global;
use std::marker::{Brand, PhantomData};

/// The answers for each group and key that a type names. A call at `Brand` picks which.
pub trait Relation {
    ghost may: { ℕ → List ℕ → Answer → Type 0 };
}

impl Relation for Brand {
    ghost may = { λ g k a. Unit {0} };
}

/// A source whose answers are those that `W` names. What another source of its type may answer its own type does not allow.
#[derive(Drop)]
pub struct Known<S: Source, W: Relation> {
    pub source: S,
    of: PhantomData<W>,
    pub ghost same: { ∥ IsNamed (S.answers source) W.may ∥₁ },
}

impl<S: Source, W: Relation> Known<S, W> {
    /// The source under that name.
    pub fn new(source: S) -> Known<S, W>
        requires { IsNamed (S.answers source) W.may }
        ensures { result.source ≡ source }
    {
        Known {
            source,
            of: PhantomData,
        }
    }
}

impl<S: Source + Send + Sync, W: Relation + Send + Sync> Source for Known<S, W> {
    ghost answers = { λ s. S.answers s.source };

    ghost allowed = { AllowsNamed W.may };

    ghost count = { λ s. S.count s.source };

    ghost number_of = { λ s name. S.number_of s.source name };

    fn group_count(&self) -> usize {
        self.source.group_count()
    }

    fn group(&self, name: &[u8]) -> Option<GroupId> {
        self.source.group(name)
    }

    fn get(&self, alloc: Global, group: GroupId, key: &[u8], sink: &mut AllocSink) -> GetResult {
        self.source.get(alloc, group, key, sink)
    }

    ghost within = { λ s. named_within (S.answers s.source) W.may s.same (λ g k a h. S.limited g k a (S.within s.source g k a h)) };

    ghost limited = { λ g k a h. h.1 };

    ghost answered = { λ s. S.answered s.source };

    ghost numbered = { λ s. S.numbered s.source };
}
