//! How a pool is closed: with seats missing it comes back, and with all seats it tells what three asks for a key counted.
ghost use Rattle.std.specs.Prelude.{◌≡◌};

use super::desk::Desk;
use crate::tests::values::{ECHO, is_shown_by};
use peer_fill::Report;
use std::alloc::Global;
use std::marker::Brand;
use std::sync::Wait;
use std::sync::atomic::AtomicU64;
use std::sync::atomic::Ordering::SeqCst;
use std::sync::ledger::{Blank, Ledger};
use test_support::{Hook, Hooked, all_called};

// Counts the calls of a source.
#[derive(Clone, Copy)]
struct Counting<'a> {
    calls: &'a AtomicU64,
}

impl<'a> Hook for Counting<'a> {
    fn may_call(&self, _alloc: Global, _key: &[u8]) -> bool {
        self.calls.fetch_add(1, SeqCst);
        true
    }
}

// Both connections ask for a key, the pool is stopped, its worker runs, and the first asks again: whether the claims of both show
// the key, and the report of the pool, whose calls are counted.
fn ask_thrice<L: Ledger, R: Wait>(
    rt: &R,
    alloc: Global,
    calls: &AtomicU64,
    blank: Blank,
) -> Option<([bool; 2], Report)>
    requires name { blank.name ≡ L.name }
    requires parts { (blank.parts ≡ L.parts) × (blank.parts ≡ 16) }
{
    let source = Hooked {
        hook: Counting { calls },
    };
    let mut desk = Desk::<Hooked<Counting<'_>>, L>::open(alloc, source, 0, blank)?;
    let first = desk.ask(rt, ECHO, b"k");
    desk.change_seats();
    let second = desk.ask(rt, ECHO, b"k");
    desk.change_seats();
    desk.stop();
    let mut desk = desk.run_worker(rt);
    let shown = [is_shown_by(&first, b"k"), is_shown_by(&second, b"k")];
    drop(first);
    drop(second);
    drop(desk.ask(rt, ECHO, b"k"));
    let report = desk.close(rt)?;
    Some((shown, report))
}

// The same over a pool of its own.
fn asked_thrice<R: Wait>(rt: &R, alloc: Global, calls: &AtomicU64) -> Option<([bool; 2], Report)> {
    ask_thrice::<Brand, R>(rt, alloc, calls, Blank::new(16))
}

// The third ask led a flight whose job was left.
#[test]
fn two_seats_share_one_call(rt: HostRuntime) {
    let calls = AtomicU64::new(0);
    let report = Report {
        led: 2,
        joined: 1,
        calls: 1,
        left: 1,
        ..all_called(3)
    };
    let seen = asked_thrice(&rt, rt.alloc(), &calls);
    assert_eq!(rt; (seen, calls.load(SeqCst)), (Some(([true; 2], report)), 1));
}
