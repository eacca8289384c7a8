//! The source for demonstrations, with something done before each call.
ghost use Rattle.peer_source.specs.Demo.{DemoAnswers, demo_number, demo_answered, demo_numbered};
ghost use Rattle.peer_source.specs.DemoLaws.{demo_limited};

use peer_source::{DemoSource, GetFault, GetResult, GroupId, Source};
use peer_view::AllocSink;
use std::alloc::Global;
use std::sync::atomic::AtomicBool;
use std::sync::atomic::Ordering::SeqCst;

/// What is done before a call of the source for demonstrations.
pub trait Hook: Send + Sync + Drop {
    /// Whether the source may be called: else the call ends as one that was refused memory.
    fn may_call(&self, alloc: Global, key: &[u8]) -> bool;
}

/// The source for demonstrations, behind a hook.
#[derive(Drop)]
pub struct Hooked<K: Hook> {
    pub hook: K,
}

impl<K: Hook> Source for Hooked<K> {
    ghost answers = { λ s g k a. DemoAnswers g k a };

    ghost allowed = { DemoAnswers };

    ghost count = { λ s. 3 };

    ghost number_of = { λ s name. demo_number name };

    fn group_count(&self) -> usize {
        DemoSource.group_count()
    }

    fn group(&self, name: &[u8]) -> Option<GroupId> {
        DemoSource.group(name)
    }

    fn get(&self, alloc: Global, group: GroupId, key: &[u8], sink: &mut AllocSink) -> GetResult {
        if !self.hook.may_call(alloc, key) {
            return Err(GetFault::Memory);
        }
        DemoSource.get(alloc, group, key, sink)
    }

    ghost within = { λ s g k a h. h };

    ghost limited = { λ g k a h. demo_limited g k a h };

    ghost answered = { λ s g k. demo_answered g k };

    ghost numbered = { λ s name i e. demo_numbered name i e };
}

// More bytes than there is memory.
const TOO_MANY: usize = 1 << 62;

/// The first call for the key `b` asks for memory that cannot be had.
#[derive(Drop)]
pub struct Refusing {
    asked: AtomicBool,
}

impl Refusing {
    pub const fn new() -> Refusing {
        Refusing {
            asked: AtomicBool::new(false),
        }
    }
}

impl Hook for Refusing {
    fn may_call(&self, alloc: Global, key: &[u8]) -> bool {
        let first = key == b"b".as_slice() && !self.asked.swap(true, SeqCst);
        !first || Vec::<u8>::with_capacity(alloc, TOO_MANY).is_ok()
    }
}
