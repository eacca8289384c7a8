//! Jobs whose answers are brought from elsewhere, and jobs that are filled without waiting for more.
ghost use Rattle.std.specs.Prelude.{◌≤◌, length};
ghost use Rattle.peer_view.specs.Sinks.{MAX_VALUE};

use super::desk::{Desk, Steps, run};
use super::numbering::Numbering;
use crate::tests::values::{ECHO, is_shown_by};
use bytes::Bytes;
use peer_fill::{Gate, Report, TakenJob};
use peer_flight::Claim;
use peer_source::{GroupId, Outcome};
use peer_view::ByteView;
use std::alloc::Global;
use std::sync::Wait;
use std::sync::atomic::AtomicU64;
use std::sync::atomic::Ordering::SeqCst;
use std::sync::ledger::Ledger;
use test_support::all_called;

// Counts how often it was called.
#[derive(Drop)]
struct Counting {
    before: AtomicU64,
    after: AtomicU64,
}

impl Gate for Counting {
    fn after_take<R: Wait>(&self, _rt: &R, _group: GroupId, _key: &[u8]) {
        let _ = self.before.fetch_add(1, SeqCst);
    }

    fn after_put<R: Wait>(&self, _rt: &R, _number: u64, _group: GroupId, _key: &[u8]) {
        let _ = self.after.fetch_add(1, SeqCst);
    }
}

// The value that is brought.
fn brought() -> ByteView
    ensures { length result ≤ MAX_VALUE }
{
    ByteView::from_shared(Bytes::from_static(b"brought"))
}

// Finishes the job of this key with this value. Whether the job was there.
fn bring<L: Ledger, R: Wait>(
    rt: &R,
    desk: &mut Desk<Numbering, L>,
    job: Option<TakenJob<Numbering>>,
    key: &[u8],
    gate: &Counting,
) -> bool {
    let Some(job) = job else {
        return false;
    };
    let is_own = job.group() == ECHO && job.key() == key;
    let outcome = Outcome::Found(brought());
    desk.pool
        .finish(rt, &mut desk.seats.fill, job, outcome, gate);
    is_own
}

// Two claims, if they are there.
type Pair = [Option<Claim<Numbering>>; 2];

// Whether each claim shows the value that is brought.
fn are_shown(claims: &Pair) -> [bool; 2] {
    [
        is_shown_by(&claims[0], b"brought"),
        is_shown_by(&claims[1], b"brought"),
    ]
}

// Whether there is no job.
fn lacks_job<L: Ledger, R: Wait>(rt: &R, desk: &mut Desk<Numbering, L>, gate: &Counting) -> bool {
    let job = desk.take_job(rt, gate);
    let is_none = job.is_none();
    drop(job);
    is_none
}

// What became of two jobs that were taken, the second of which was finished first.
#[derive(Clone, Copy, Debug, PartialEq, Eq)]
struct Seen {
    // Whether a job was there before anybody asked, and behind the two.
    none: [bool; 2],
    // Whether each was the job of its key.
    own: [bool; 2],
    // Whether each claim shows the value: before, behind the second, and behind both.
    shown: [[bool; 2]; 3],
    // Whether the value was kept.
    hit: bool,
    // How often the gate was called.
    gate: [u64; 2],
    // How many jobs were filled of three, at most two, and then all that were left.
    filled: [usize; 3],
}

// Takes the jobs of two claims, and finishes the second one first.
fn bring_both<L: Ledger, R: Wait>(
    rt: &R,
    desk: &mut Desk<Numbering, L>,
    claims: &Pair,
    gate: &Counting,
) -> ([bool; 2], [[bool; 2]; 3], bool) {
    let first = desk.take_job(rt, gate);
    let second = desk.take_job(rt, gate);
    let is_last = lacks_job(rt, desk, gate);
    let before = are_shown(claims);
    let second_own = bring(rt, desk, second, b"two", gate);
    let between = are_shown(claims);
    let first_own = bring(rt, desk, first, b"one", gate);
    (
        [first_own, second_own],
        [before, between, are_shown(claims)],
        is_last,
    )
}

// Leads three flights, and fills their jobs, two at most and then what is left.
fn work_off<L: Ledger, R: Wait>(
    rt: &R,
    desk: &mut Desk<Numbering, L>,
    gate: &Counting,
) -> [usize; 3] {
    for key in [b"three".as_slice(), b"four", b"five"] {
        drop(desk.ask(rt, ECHO, key));
    }
    let two = desk.work(rt, 2, gate);
    let one = desk.work(rt, 2, gate);
    [two, one, desk.work(rt, 2, gate)]
}

// Whether an ask for the second key that was brought is a hit.
fn hits<L: Ledger, R: Wait>(rt: &R, desk: &mut Desk<Numbering, L>) -> bool {
    let claim = desk.ask(rt, ECHO, b"two");
    let is_hit = matches!(claim, Some(Claim::Ready(_)));
    drop(claim);
    is_hit
}

/// Asks for two keys whose values are brought, and then for three that are filled.
struct Brings;

impl Steps for Brings {
    type Source = Numbering;

    type Seen = Seen;

    fn take<L: Ledger, R: Wait>(&self, rt: &R, desk: &mut Desk<Numbering, L>) -> Option<Seen> {
        let gate = Counting {
            before: AtomicU64::new(0),
            after: AtomicU64::new(0),
        };
        let is_empty = lacks_job(rt, desk, &gate);
        let claims = [desk.ask(rt, ECHO, b"one"), desk.ask(rt, ECHO, b"two")];
        let (own, shown, is_last) = bring_both(rt, desk, &claims, &gate);
        drop(claims);
        let hit = hits(rt, desk);
        let filled = work_off(rt, desk, &gate);
        Some(Seen {
            none: [is_empty, is_last],
            own,
            shown,
            hit,
            gate: [gate.before.load(SeqCst), gate.after.load(SeqCst)],
            filled,
        })
    }
}

// What is seen of a pool whose cache keeps so many bytes, and its report.
fn with_brought<R: Wait>(rt: &R, alloc: Global, cache_bytes: u64) -> Option<(Seen, Report)> {
    run(rt, alloc, Numbering::new(2, 0, 0), cache_bytes, &Brings)
}

// What is expected, where the third ask for a key was a hit or not, so many jobs of three were filled each time, and so
// many were led.
fn expected(hit: bool, filled: [usize; 3], led: u64) -> Option<(Seen, Report)> {
    let seen = Seen {
        none: [true, true],
        own: [true, true],
        shown: [[false, false], [false, true], [true, true]],
        hit,
        gate: [led, led],
        filled,
    };
    let report = Report {
        hits: u64::from(hit),
        led,
        calls: led,
        ..all_called(6)
    };
    Some((seen, report))
}

// Where nothing is kept, the key is asked for again behind its flight, which landed: a new one is led.
#[test]
fn a_value_that_is_brought_is_shown_told_and_kept(rt: HostRuntime) {
    for (cache_bytes, hit, filled, led) in [(1000, true, [2, 1, 0], 5), (0, false, [2, 2, 0], 6)] {
        let found = with_brought(&rt, rt.alloc(), cache_bytes);
        assert_eq!(rt; found, expected(hit, filled, led), "of {cache_bytes} bytes");
    }
}
