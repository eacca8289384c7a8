//! An exchange over a source that is known by its answers: what it sends, its law and its end.
ghost use Rattle.std.specs.Prelude.{◌≡◌, All};
ghost use Rattle.peer_known.specs.Names.{IsNamed};
ghost use Rattle.peer_fill.specs.Pools.{IsConnSeatOf, IsFillSeatOf};

use peer_exchange::{End, Exchange, ReplyNotes};
use peer_fill::{NoGate, Pool, Seats, pop_seat};
use peer_known::{Known, Relation};
use peer_source::{DemoSource, Source};
use std::alloc::Global;
use std::marker::Brand;
use std::sync::Wait;
use std::sync::ledger::{Blank, Ledger};
use stream_model::{ASK_K_LAST, FOUND_K_LAST};
use test_support::open_pool;

// A closing request comes, its job is filled, and its reply goes. Whether it is the one of the demonstration, and whether the exchange
// is open before and has ended clean after it.
fn is_answered<S: Source + Send + Sync, W: Relation + Send + Sync, L: Ledger, H: Wait>(
    rt: &H,
    alloc: Global,
    pool: &Pool<Known<S, W>, L>,
    lists: Seats<Known<S, W>, L>,
) -> Option<bool>
    requires fills { All (IsFillSeatOf pool.now) lists.fills.items }
    requires conns { All (IsConnSeatOf pool.now) lists.conns.items }
{
    let Seats {
        mut fills,
        mut conns,
    } = lists;
    let mut fill = pop_seat(pool, &mut fills)?;
    let mut conn = pop_seat(pool, &mut conns)?;
    let mut replies = ReplyNotes::new(None);
    let mut exchange = Exchange::new(alloc, pool.names());
    let before = exchange.ended_known();
    let _ = exchange.receive(ASK_K_LAST);
    let _ = exchange.ask_held(rt, pool, &mut conn);
    pool.work_some(rt, alloc, &mut fill, 256, &NoGate);
    let _ = exchange.answer_ready(pool, &mut conn, &mut replies);
    exchange.law_known();
    let is_reply = exchange.output() == FOUND_K_LAST;
    let n = exchange.output().len();
    exchange.sent(n);
    Some(is_reply && before == None && exchange.ended_known() == Some(End::Clean))
}

// The same over a pool in a ledger.
fn is_answered_over<S: Source + Send + Sync, W: Relation + Send + Sync, L: Ledger, H: Wait>(
    rt: &H,
    alloc: Global,
    known: Known<S, W>,
    blank: Blank,
) -> Option<bool>
    requires name { blank.name ≡ L.name }
    requires parts { (blank.parts ≡ L.parts) × (blank.parts ≡ 16) }
{
    let (pool, lists) = open_pool::<Known<S, W>, L>(alloc, known, 65_536, 1, 1, blank)?;
    is_answered(rt, alloc, &pool, lists)
}

// The same over a source under a name of its answers.
fn is_answered_under<S: Source + Send + Sync, W: Relation + Send + Sync, H: Wait>(
    rt: &H,
    alloc: Global,
    source: S,
) -> Option<bool>
    requires { IsNamed (S.answers source) W.may }
{
    let known = Known::<S, W>::new(source);
    is_answered_over::<S, W, Brand, H>(rt, alloc, known, Blank::new(16))
}

// The same over a source.
fn is_answered_by<S: Source + Send + Sync, H: Wait>(
    rt: &H,
    alloc: Global,
    source: S,
) -> Option<bool> {
    is_answered_under::<S, Brand, H>(rt, alloc, source)
}

#[test]
fn an_exchange_over_a_known_source_answers_as_the_source_does(rt: HostRuntime) {
    assert!(rt; is_answered_by(&rt, rt.alloc(), DemoSource) == Some(true));
}
