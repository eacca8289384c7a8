//! Fills: a group, a key, and what the source answered.
ghost use Rattle.std.specs.Prelude.{◌≡◌, ◌⊎◌, ℕ, None, Some, IfSome, IfOk};
ghost use Rattle.peer_source.specs.Answers.{Failed, IsWithinLimit, too_long_text};
ghost use Rattle.peer_source.specs.Caches.{IsAnswer, found_fill};
ghost use Rattle.peer_source.specs.Reports.{reported};
ghost use Rattle.peer_source.specs.Outcomes.{answer_of};

use crate::group::GroupId;
use crate::source::{GetFault, Source};
use bytes::Bytes;
use peer_view::{AllocSink, ByteView};
use std::alloc::{AllocError, Global};
use std::marker::{Model, PhantomData};

/// What a source answered.
#[derive(Drop)]
pub enum Outcome {
    /// The value.
    Found(ByteView),
    /// The text of an error.
    Failed(ByteView),
    /// Memory was refused.
    NoMemory,
}

/// An answer that the type of the source allows, for this group and key.
#[derive(Drop)]
pub struct Fill<S: Source> {
    group: GroupId,
    key: ByteView,
    outcome: Outcome,
    of: PhantomData<S>,
}

impl<S: Source> Model for Fill<S> {
    ghost use Rattle.std.specs.Prelude.{IfSome};
    ghost use Rattle.peer_source.specs.Answers.{Filled, IsWithinLimit};
    ghost use Rattle.peer_source.specs.Outcomes.{answer_of};

    ghost Value = { Filled };

    ghost view = { λ f. record { group = f.group.number; key = f.key; answer = answer_of f.outcome } };

    ghost invariant = { λ f. IsWithinLimit (answer_of f.outcome) × ∥ IfSome (answer_of f.outcome) (S.allowed f.group.number f.key) ∥₁ };
}

// The outcome that a call of `get` reported, with what it left in the sink.
fn outcome_of(got: Result<(), GetFault>, sink: AllocSink) -> Outcome
    ensures answer { (answer_of result ≡ reported got sink) ⊎ (answer_of result ≡ None) }
    ensures within { IsWithinLimit (answer_of result) }
{
    match got {
        Ok(()) => Outcome::Found(sink.into_view()),
        Err(GetFault::Text(text)) => failure_of(text),
        Err(GetFault::TooLong) => Outcome::Failed(too_long_text()),
        Err(GetFault::Memory) => Outcome::NoMemory,
    }
}

// The failure with this text.
fn failure_of(text: Vec<u8>) -> Outcome
    ensures answer { (answer_of result ≡ Some (Failed text.items)) ⊎ (answer_of result ≡ None) }
    ensures within { IsWithinLimit (answer_of result) }
{
    match ByteView::from_vec(text) {
        Ok(text) => Outcome::Failed(text),
        Err(_) => Outcome::NoMemory,
    }
}

/// The text of the failure of a value over the limit.
pub fn too_long_text() -> ByteView
    ensures { result ≡ too_long_text }
{
    ByteView::from_shared(Bytes::from_static(b"value too long"))
}

impl Outcome {
    // An outcome that shares the value or the text.
    fn share(&self) -> Result<Outcome, AllocError>
        ensures { IfOk result (λ o. answer_of o ≡ answer_of self.now) }
    {
        match self {
            Outcome::Found(value) => Ok(Outcome::Found(value.share()?)),
            Outcome::Failed(text) => Ok(Outcome::Failed(text.share()?)),
            Outcome::NoMemory => Ok(Outcome::NoMemory),
        }
    }
}

impl<S: Source> Fill<S> {
    /// Calls the source once. Where memory was refused, the fill has no answer.
    pub fn run(alloc: Global, source: &S, group: GroupId, key: ByteView) -> Fill<S>
        ensures group { result.group ≡ group.number }
        ensures key { result.key ≡ key }
        ensures answer { IfSome result.answer (S.answers source.now group.number key) }
    {
        let mut sink = AllocSink::new();
        let got = source.get(alloc, group, key.as_slice(), &mut sink);
        let outcome = outcome_of(got, sink);
        Fill {
            group,
            key,
            outcome,
            of: PhantomData,
        }
    }

    /// A fill without an answer, as where memory was refused. It calls no source.
    pub fn unanswered(group: GroupId, key: ByteView) -> Fill<S>
        ensures group { result.group ≡ group.number }
        ensures key { result.key ≡ key }
        ensures answer { result.answer ≡ None }
    {
        Fill {
            group,
            key,
            outcome: Outcome::NoMemory,
            of: PhantomData,
        }
    }

    /// The fill of an answer that is brought from elsewhere. It calls no source.
    pub fn of_answer(group: GroupId, key: ByteView, outcome: Outcome) -> Fill<S>
        requires allowed { IfSome (answer_of outcome) (S.allowed group.number key) }
        ensures group { result.group ≡ group.number }
        ensures key { result.key ≡ key }
        ensures answer { result.answer ≡ answer_of outcome }
    {
        Fill {
            group,
            key,
            outcome,
            of: PhantomData,
        }
    }

    /// The fill of a value that the type of the source allows.
    pub(crate) fn of_value(group: GroupId, key: ByteView, value: ByteView) -> Fill<S>
        requires { IsAnswer S.allowed group.number (key, value) }
        ensures { result ≡ found_fill group.number key value }
    {
        Fill {
            group,
            key,
            outcome: Outcome::Found(value),
            of: PhantomData,
        }
    }

    /// The group that was asked for.
    pub fn group(&self) -> GroupId
        ensures { result.number ≡ self.now.group }
    {
        self.group
    }

    /// The key that was asked for.
    pub fn key(&self) -> &ByteView
        ensures { result.now ≡ self.now.key }
    {
        &self.key
    }

    /// What the source answered.
    pub fn outcome(&self) -> &Outcome
        ensures answer { answer_of result.now ≡ self.now.answer }
        ensures within { IsWithinLimit self.now.answer }
    {
        &self.outcome
    }

    /// An equal fill, which shares the key, and the value or the text.
    pub fn share(&self) -> Result<Fill<S>, AllocError>
        ensures { IfOk result (λ f. f ≡ self.now) }
    {
        let key = self.key.share()?;
        let outcome = self.outcome.share()?;
        Ok(Fill {
            group: self.group,
            key,
            outcome,
            of: PhantomData,
        })
    }

    /// The law of fills: an answer is one that the type of the source allows.
    pub fn law(&self)
        ensures { ∥ IfSome self.now.answer (S.allowed self.now.group self.now.key) ∥₁ }
    {
        let _ = &self.outcome;
    }
}
