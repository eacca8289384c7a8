//! Exchanges that go to another thread.

use super::worked::{Texts, WHOLE, are_sent, worked};
use exchange_drive::Driven;
use peer_exchange::End;
use std::alloc::{AllocError, Global};
use std::sync::Wait;
use std::sync::ledger::Ledger;
use std::thread;
use std::thread::Threads;
use stream_model::ASK_K;

// The end of a text comes, and all replies go. Whether these bytes were sent.
fn ends_with<L: Ledger, H: Wait>(
    driven: Driven<'_, L>,
    rt: &H,
    alloc: Global,
    rest: &[u8],
    replies: &[u8],
) -> bool {
    let mut driven = driven;
    match driven.drive(rt, alloc, rest, WHOLE) {
        Ok(ended) => ended == Some(End::Clean) && driven.sent() == replies,
        Err(AllocError) => false,
    }
}

/// The first request and some of the second come in this thread, and the rest in another. Whether the replies are sent.
pub fn sends_moved<L: Ledger + Send + Sync, H: Threads + Wait + Sync>(
    driven: Driven<'_, L>,
    rt: &H,
    alloc: Global,
) -> Result<bool, AllocError> {
    let (text, replies) = worked(alloc)?;
    let mut driven = driven;
    let rest = driven.feed(&text, ASK_K.len() + 10);
    driven.serve(rt, alloc);
    driven.take(20)?;
    let sent: &[u8] = &replies;
    let right = thread::scope(thread::scope_env(), rt, move |scope| -> bool {
        match scope.spawn(move || ends_with(driven, rt, alloc, rest, sent)) {
            Ok(child) => child.join(rt),
            Err(_) => false,
        }
    });
    Ok(right)
}

#[test]
fn an_exchange_goes_to_another_thread(rt: HostRuntime) {
    assert!(rt; are_sent(&rt, rt.alloc(), Texts::Moved) == Ok(true));
}
