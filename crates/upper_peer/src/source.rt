//! A source of one's own: the value of a key of the group `upper` is the key in upper case.
ghost use Rattle.std.specs.Prelude.{◌≡◌, refl};
ghost use Rattle.upper_peer.specs.Upper.{upper_answer, upper_number, upper_limited, upper_answered, upper_numbered};

use peer_source::{FunctionalSource, GetFault, GetResult, GroupId, Source};
use peer_view::{AllocSink, SinkFault};
use std::alloc::Global;

/// Puts keys into upper case, the letters of ASCII.
#[derive(Clone, Copy, Debug)]
pub struct UpperSource;

impl Source for UpperSource {
    ghost answers = { λ s g k a. a ≡ upper_answer k };

    ghost allowed = { λ g k a. a ≡ upper_answer k };

    ghost count = { λ s. 1 };

    ghost number_of = { λ s name. upper_number name };

    fn group_count(&self) -> usize {
        1
    }

    fn group(&self, name: &[u8]) -> Option<GroupId> {
        if name == b"upper".as_slice() {
            Some(GroupId { number: 0 })
        } else {
            None
        }
    }

    fn get(&self, alloc: Global, _group: GroupId, key: &[u8], sink: &mut AllocSink) -> GetResult {
        let Ok(value) = key.to_ascii_uppercase(alloc) else {
            return Err(GetFault::Memory);
        };
        match sink.set_bytes(alloc, &value) {
            Ok(()) => Ok(()),
            Err(SinkFault::TooLong) => Err(GetFault::TooLong),
            Err(SinkFault::Memory) => Err(GetFault::Memory),
        }
    }

    ghost within = { λ s g k a h. h };

    ghost limited = { λ g k a h. upper_limited k a h };

    ghost answered = { λ s g k. upper_answered k };

    ghost numbered = { λ s name i e. upper_numbered name i e };
}

impl FunctionalSource for UpperSource {
    ghost the_answer = { λ g k. upper_answer k };

    ghost the_number = { upper_number };

    ghost single = { λ g k a h. h };

    ghost fixed_names = { λ s name. refl };
}
