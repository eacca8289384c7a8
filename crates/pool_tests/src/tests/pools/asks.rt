//! What a pool keeps: which asks are hits, what they show, and which value goes first.
ghost use Rattle.std.specs.Prelude.{◌≡◌};

use super::desk::{Desk, Steps, run};
use super::numbering::Numbering;
use crate::tests::values::{ECHO, value_of};
use peer_fill::{NoGate, Report};
use peer_flight::Claim;
use peer_source::{DemoSource, Source};
use std::alloc::Global;
use std::marker::Brand;
use std::sync::Wait;
use std::sync::ledger::{Blank, Ledger};
use test_support::all_called;

/// What five asks gave: which were hits, and the last byte of what each showed, or 0.
type Shown = ([bool; 5], [u8; 5]);

// Whether the claim is a hit, and the last byte that it shows.
fn shown_last<S: Source>(claim: &Claim<S>) -> Option<(bool, u8)> {
    let mut note = claim.note();
    let value = value_of(claim.look(&mut note)?);
    let last = value.last().copied().unwrap_or(0);
    Some((matches!(claim, Claim::Ready(_)), last))
}

// Asks for a key of one byte, and has the worker run behind it: whether it was a hit, and the last byte that it showed.
fn ask_and_work<S: Source, L: Ledger, R: Wait>(
    rt: &R,
    desk: &mut Desk<S, L>,
    key: u8,
) -> Option<(bool, u8)> {
    let claim = desk.ask(rt, ECHO, &[key])?;
    desk.work(rt, 1, &NoGate);
    let seen = shown_last(&claim);
    drop(claim);
    seen
}

// The same for five keys.
fn ask_for_each<S: Source, L: Ledger, R: Wait>(
    rt: &R,
    desk: &mut Desk<S, L>,
    keys: &[u8; 5],
) -> Option<Shown> {
    let mut hits = [false; 5];
    let mut lasts = [0; 5];
    for i in 0..5 {
        (hits[i], lasts[i]) = ask_and_work(rt, desk, keys[i])?;
    }
    Some((hits, lasts))
}

// Asks for five keys, and once more for the last one, for which no worker runs.
#[derive(Clone, Copy)]
struct SixAsks {
    keys: [u8; 5],
}

impl Steps for SixAsks {
    type Source = Numbering;

    type Seen = Shown;

    fn take<L: Ledger, R: Wait>(&self, rt: &R, desk: &mut Desk<Numbering, L>) -> Option<Shown> {
        let shown = ask_for_each(rt, desk, &self.keys);
        drop(desk.ask(rt, ECHO, &[self.keys[4]]));
        shown
    }
}

// What six asks give of a pool whose caches keep so many bytes, and its report. The first calls of its source fail.
fn six_asks<R: Wait>(
    rt: &R,
    alloc: Global,
    failures: u64,
    cache_bytes: u64,
    keys: &[u8; 5],
) -> Option<(Shown, Report)> {
    let source = Numbering::new(2, failures, 0);
    run(rt, alloc, source, cache_bytes, &SixAsks { keys: *keys })
}

// What is expected where these asks were hits and showed this, and the report of all asks, of which so many were hits
// and so many led. For so many of those the source was called.
fn expected(shown: Shown, hits: u64, led: u64, calls: u64) -> Option<(Shown, Report)> {
    let report = Report {
        hits,
        led,
        calls,
        left: led.saturating_sub(calls),
        ..all_called(hits.saturating_add(led))
    };
    Some((shown, report))
}

#[test]
fn an_error_is_never_kept(rt: HostRuntime) {
    let seen = six_asks(&rt, rt.alloc(), 2, 100, b"kkkkk");
    let hits = [false, false, false, true, true];
    assert_eq!(rt; seen, expected((hits, *b"\0\0333"), 3, 3, 3));
}

// Two keys have room, or none. The sixth ask is for the last key again.
#[test]
fn a_value_is_kept_until_it_is_evicted(rt: HostRuntime) {
    for (cache_bytes, keys, hits, lasts, counts) in [
        (0, b"aabba", [false; 5], *b"12345", [0, 6, 5]),
        (
            6,
            b"abaca",
            [false, false, true, false, true],
            *b"12131",
            [3, 3, 3],
        ),
        (
            6,
            b"kkabk",
            [false, true, false, false, false],
            *b"11234",
            [2, 4, 4],
        ),
    ] {
        let seen = six_asks(&rt, rt.alloc(), 0, cache_bytes, keys);
        let [hit, led, calls] = counts;
        assert_eq!(rt;
            seen,
            expected((hits, lasts), hit, led, calls),
            "of {cache_bytes} bytes"
        );
    }
}

// Asks a stopped pool for a key of one byte, and has its worker run until no job is left: the pool, whether it was a hit, and the
// last byte that it showed.
fn ask_and_run<L: Ledger, R: Wait>(
    rt: &R,
    desk: Desk<DemoSource, L>,
    key: u8,
) -> (Desk<DemoSource, L>, Option<(bool, u8)>) {
    let mut desk = desk;
    let claim = desk.ask(rt, ECHO, &[key]);
    let desk = desk.run_worker(rt);
    let seen = match &claim {
        Some(claim) => shown_last(claim),
        None => None,
    };
    drop(claim);
    (desk, seen)
}

// What asks for three keys showed, of which two have room, and the report of the pool.
fn ask_stopped<L: Ledger, R: Wait>(
    rt: &R,
    alloc: Global,
    keys: &[u8; 5],
    blank: Blank,
) -> Option<(Shown, Report)>
    requires name { blank.name ≡ L.name }
    requires parts { (blank.parts ≡ L.parts) × (blank.parts ≡ 16) }
{
    let mut desk = Desk::<DemoSource, L>::open(alloc, DemoSource, 4, blank)?;
    desk.stop();
    let mut shown = ([false; 5], [0; 5]);
    for i in 0..5 {
        let (next, seen) = ask_and_run(rt, desk, keys[i]);
        desk = next;
        (shown.0[i], shown.1[i]) = seen.unwrap_or((false, 0));
    }
    let report = desk.close(rt)?;
    Some((shown, report))
}

// The same over a pool of its own.
fn asked_stopped<R: Wait>(rt: &R, alloc: Global, keys: &[u8; 5]) -> Option<(Shown, Report)> {
    ask_stopped::<Brand, R>(rt, alloc, keys, Blank::new(16))
}

#[test]
fn the_oldest_value_goes_first(rt: HostRuntime) {
    let seen = asked_stopped(&rt, rt.alloc(), b"abcac");
    let hits = [false, false, false, false, true];
    assert_eq!(rt; seen, expected((hits, *b"abcac"), 1, 4, 4));
}
