//! What sources tell of their calls.

use super::pooled::Setup;
use peer_fill::Gate;
use std::alloc::Global;
use std::sync::atomic::AtomicU64;
use std::sync::atomic::Ordering::SeqCst;
use test_support::{Hook, Hooked, Step};

/// What is told of a source: how often it was called, and what its calls for the keys `a` and `b` wait for.
#[derive(Drop)]
pub struct Watch {
    pub calls: AtomicU64,
    pub all_read: Step,
    pub first_reply: Step,
}

impl Watch {
    pub const fn new() -> Watch {
        Watch {
            calls: AtomicU64::new(0),
            all_read: Step::new(),
            first_reply: Step::new(),
        }
    }
}

/// Watches each call. Where it is patient, the call for the key `a` waits until all was read, and that for `b` until the
/// first reply is written.
#[derive(Clone, Copy)]
pub struct Watched<'a> {
    pub watch: &'a Watch,
    pub patient: bool,
}

impl<'a> Hook for Watched<'a> {
    fn may_call(&self, _alloc: Global, key: &[u8]) -> bool {
        self.watch.calls.fetch_add(1, SeqCst);
        if self.patient && key == b"a".as_slice() {
            self.watch.all_read.wait();
        }
        if self.patient && key == b"b".as_slice() {
            self.watch.first_reply.wait();
        }
        true
    }
}

/// A pool of two workers over the source for demonstrations, watched.
pub fn watching<'a, G: Gate>(
    watch: &'a Watch,
    cache_bytes: u64,
    gate: &'a G,
) -> Setup<'a, Hooked<Watched<'a>>, G> {
    let hook = Watched {
        watch,
        patient: false,
    };
    Setup {
        source: Hooked { hook },
        cache_bytes,
        workers: 2,
        gate,
    }
}
