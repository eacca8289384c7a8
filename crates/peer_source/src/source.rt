//! What has values by group and key (`Getter` and `Group` of `groupcache.go`).
ghost use Rattle.std.specs.Prelude.{◌≡◌, ℕ, ◌<◌, List, Option, Some, IfSome, option_map};
ghost use Rattle.peer_source.specs.Answers.{Answer, IsWithinLimit};

use crate::group::GroupId;
use peer_view::AllocSink;
use std::alloc::Global;

/// Why a source gave no value.
#[derive(Debug, Drop)]
pub enum GetFault {
    /// The source's own error, whose text the client gets.
    Text(Vec<u8>),
    /// The value is longer than a sink takes.
    TooLong,
    /// Memory was refused.
    Memory,
}

impl GetFault {
    ghost use Rattle.std.specs.Prelude.{Err};
    ghost use Rattle.peer_source.specs.Answers.{Failed};
    ghost use Rattle.peer_source.specs.Reports.{reported};

    /// The source's own error with this text, or refused memory.
    pub fn with_text(alloc: Global, text: &[u8]) -> GetFault
        ensures { (value : List ℕ) → IfSome (reported (Err result) value) (λ a. a ≡ Failed text.now) }
    {
        match text.to_vec(alloc) {
            Ok(text) => GetFault::Text(text),
            Err(_) => GetFault::Memory,
        }
    }
}

/// What a `get` came to: the sink has the value, or there is none.
pub type GetResult = Result<(), GetFault>;

/// What threads can share, under a name of its own: who asks for a source need not look for what that is made of.
pub trait Shared {}

impl<T: Send + Sync> Shared for T {}

/// What has values by group and key. Its answers may differ from call to call.
pub trait Source: Shared + Drop {
    ghost use Rattle.peer_source.specs.Reports.{reported};

    // The answers that this source may give for a group's number and a key.
    ghost answers: { Self → ℕ → List ℕ → Answer → Type 0 };
    // The answers that some source of this type may give.
    ghost allowed: { ℕ → List ℕ → Answer → Type 0 };
    // How many groups there are.
    ghost count: { Self → ℕ };
    // The number of the group of a name.
    ghost number_of: { Self → List ℕ → Option ℕ };

    /// How many groups there are.
    fn group_count(&self) -> usize
        ensures { result ≡ count self.now };

    /// The group of a name.
    fn group(&self, name: &[u8]) -> Option<GroupId>
        ensures { option_map (λ g. g.number) result ≡ number_of self.now name.now };

    /// Puts the value for a group and a key into the sink, or says why there is none.
    fn get(&self, alloc: Global, group: GroupId, key: &[u8], sink: &mut AllocSink) -> GetResult
        ensures { IfSome (reported result sink.new) (answers self.now group.number key.now) };

    // What a source answers is allowed, a found answer is within the limit, there is an answer to everything, and each
    // number is that of a group.
    ghost within: { (s : Self) (g : ℕ) (k : List ℕ) (a : Answer) → answers s g k a → allowed g k a };

    ghost limited: { (g : ℕ) (k : List ℕ) (a : Answer) → allowed g k a → IsWithinLimit (Some a) };

    ghost answered: { (s : Self) (g : ℕ) (k : List ℕ) → (a : Answer) × answers s g k a };

    ghost numbered: { (s : Self) (name : List ℕ) (i : ℕ) → number_of s name ≡ Some i → i < count s };
}
