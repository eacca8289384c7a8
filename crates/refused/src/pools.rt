//! Pools in one thread: how one is opened, asked and worked for.
ghost use Rattle.std.specs.Prelude.{◌≡◌, IfSome};
ghost use Rattle.refused.specs.Lent.{AreOf};

use crate::lent::{Demo, DemoSeats};
use crate::seen::Seen;
use crate::sources::{ECHO, fill_of, finds};
use crate::window;
use peer_fill::{OpenFault, Opened, Pool, Report};
use peer_flight::{AskFault, Claim};
use peer_source::{DemoSource, Fill, Outcome};
use peer_view::ByteView;
use std::alloc::{AllocError, Global};
use std::marker::Brand;
use std::sync::Wait;
use std::sync::ledger::{Blank, Ledger};
use test_support::seed;

/// How many bytes the caches of a pool keep here.
pub const CACHE_BYTES: u64 = 1000;

/// Whether a report adds up.
pub fn adds_up(report: &Report) -> bool {
    report.asked
        == report
            .hits
            .wrapping_add(report.led)
            .wrapping_add(report.joined)
        && report.led
            == report
                .calls
                .wrapping_add(report.rehits)
                .wrapping_add(report.left)
}

// `Pool::open`, in a ledger. What is opened can be closed.
fn opened_in<L: Ledger, R: Wait>(rt: &R, alloc: Global, blank: Blank) -> Option<Seen>
    requires name { blank.name ≡ L.name }
    requires parts { (blank.parts ≡ L.parts) × (blank.parts ≡ 16) }
{
    let seed = seed()?;
    window::begin(alloc);
    let opened = Pool::<DemoSource, L>::open(alloc, DemoSource, CACHE_BYTES, seed, 2, 3, blank);
    window::end(alloc);
    Some(match opened {
        Ok(Opened { pool, fills, conns }) => {
            let whole = fills.len() == 2 && conns.len() == 3;
            let closed = pool.close(rt, fills, conns).is_ok();
            Seen::Answered.only_if(whole && closed, "seats are missing")
        }
        Err(OpenFault::Memory) => Seen::Refused,
        Err(_) => Seen::Wrong("a fault that is none"),
    })
}

/// `Pool::open`.
pub fn open_one<R: Wait>(rt: &R, alloc: Global) -> Option<Seen> {
    opened_in::<Brand, R>(rt, alloc, Blank::new(16))
}

/// What comes before an ask: no other, one for the same key, or also its fill.
#[derive(Clone, Copy)]
pub enum Before {
    Nothing,
    Ask,
    Fill,
}

// What a seat has counted behind an ask that was not refused.
fn usual_counts(before: Before) -> [u64; 4] {
    match before {
        Before::Nothing => [1, 0, 1, 0],
        Before::Ask => [2, 0, 1, 1],
        Before::Fill => [2, 1, 1, 0],
    }
}

/// Asks for the key `k`, and lets go of the claim. None where memory was refused.
pub fn ask_once<L: Ledger, R: Wait>(lent: &Demo<'_, L, R>, seats: &mut DemoSeats<L>) -> Option<()>
    requires { AreOf lent.now.pool.now seats.old }
    ensures { AreOf lent.now.pool.now seats.new }
{
    let _claim = lent.ask_for(seats, b"k")?;
    Some(())
}

// Does what comes before the ask whose growths are counted.
fn go_before<L: Ledger, R: Wait>(
    lent: &Demo<'_, L, R>,
    seats: &mut DemoSeats<L>,
    before: Before,
) -> Option<()>
    requires { AreOf lent.now.pool.now seats.old }
    ensures { AreOf lent.now.pool.now seats.new }
{
    if matches!(before, Before::Nothing) {
        return Some(());
    }
    ask_once(lent, seats)?;
    if matches!(before, Before::Fill) {
        lent.fill_jobs(seats);
    }
    Some(())
}

// Asks for the key `k`, with growths counted.
fn ask_counted<L: Ledger, R: Wait>(
    lent: &Demo<'_, L, R>,
    seats: &mut DemoSeats<L>,
) -> Option<Result<Claim<DemoSource>, AskFault>>
    requires { AreOf lent.now.pool.now seats.old }
    ensures { AreOf lent.now.pool.now seats.new }
{
    let key = ByteView::copy_of(lent.alloc, b"k").ok()?;
    window::begin(lent.alloc);
    let asked = lent
        .pool
        .ask(lent.rt, lent.alloc, &mut seats.conn, ECHO, key);
    window::end(lent.alloc);
    Some(asked)
}

// What an ask for the key `k` was seen to do.
fn asked_seen(asked: Result<Claim<DemoSource>, AskFault>) -> Seen {
    match asked {
        Ok(claim) => Seen::Answered.only_if(claim.key().eq_bytes(b"k"), "another key"),
        Err(AskFault::Memory) => Seen::Refused,
        Err(AskFault::Worn) => Seen::Wrong("worn"),
    }
}

/// `Pool::ask` behind what comes before it. Where it is refused, the same ask is then what it would have been.
pub fn ask<L: Ledger, R: Wait>(
    lent: &Demo<'_, L, R>,
    seats: &mut DemoSeats<L>,
    before: Before,
) -> Option<Seen>
    requires { AreOf lent.now.pool.now seats.old }
    ensures { AreOf lent.now.pool.now seats.new }
{
    go_before(lent, seats, before)?;
    let counted = seats.counts();
    let seen = asked_seen(ask_counted(lent, seats)?);
    let seen = match seen {
        Seen::Refused => {
            let same = seats.counts() == counted;
            ask_once(lent, seats)?;
            seen.only_if(same, "the seat counted")
        }
        _ => seen,
    };
    Some(seen.only_if(
        seats.counts() == usual_counts(before),
        "the counts do not fit",
    ))
}

// What a claim's fill is, where it is there.
fn fill_seen(claim: &Claim<DemoSource>) -> Seen {
    let mut note = claim.note();
    match claim.look(&mut note) {
        Some(fill) => made(fill),
        None => Seen::Wrong("there is no fill"),
    }
}

// What a fill of the key `k` is.
fn made(fill: &Fill<DemoSource>) -> Seen {
    match fill.outcome() {
        Outcome::Found(found) => Seen::Answered.only_if(found.eq_bytes(b"k"), "another value"),
        Outcome::Failed(_) => Seen::Wrong("an error that is none"),
        Outcome::NoMemory => Seen::Refused,
    }
}

/// `Pool::run_worker` with one job.
pub fn work<L: Ledger, R: Wait>(
    lent: &Demo<'_, L, R>,
    mut seats: DemoSeats<L>,
) -> Option<(DemoSeats<L>, Seen)>
    requires { AreOf lent.now.pool.now seats }
    ensures { IfSome result (λ done. AreOf lent.now.pool.now done.0) }
{
    let claim = lent.ask_for(&mut seats, b"k")?;
    lent.pool.stop();
    window::begin(lent.alloc);
    let seats = lent.run_worker(seats);
    window::end(lent.alloc);
    let seen = fill_seen(&claim);
    drop(claim);
    Some((seats, seen))
}

// What a refill gave.
fn refill_seen(refilled: Result<Option<Fill<DemoSource>>, AllocError>) -> Seen {
    match refilled {
        Ok(Some(fill)) => made(&fill).only_if(fill.key().eq_bytes(b"k"), "another key"),
        Ok(None) => Seen::Wrong("another key's fill was taken"),
        Err(AllocError) => Seen::Refused,
    }
}

// `Pool::refill` of a claim by a fill of another key.
fn refill_claim<L: Ledger, R: Wait>(
    lent: &Demo<'_, L, R>,
    claim: &Claim<DemoSource>,
) -> Option<Seen> {
    let other = fill_of(lent.alloc, ECHO, b"other")?;
    window::begin(lent.alloc);
    let refilled = lent.pool.refill(lent.alloc, claim, &other);
    window::end(lent.alloc);
    let seen = refill_seen(refilled).only_if(finds(&other, b"other"), "the other fill changed");
    drop(other);
    Some(seen)
}

/// `Pool::refill` of a fill of another key.
pub fn refill<L: Ledger, R: Wait>(lent: &Demo<'_, L, R>, seats: &mut DemoSeats<L>) -> Option<Seen>
    requires { AreOf lent.now.pool.now seats.old }
    ensures { AreOf lent.now.pool.now seats.new }
{
    let claim = lent.ask_for(seats, b"k")?;
    let seen = refill_claim(lent, &claim);
    drop(claim);
    seen
}
