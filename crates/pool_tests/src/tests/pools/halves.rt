//! What happens between the halves of an ask: the flight of its key lands, whose value is then kept.

use super::desk::{Desk, Steps, run};
use super::numbering::Numbering;
use crate::tests::values::{ECHO, is_shown_by};
use peer_fill::{NoGate, Report};
use peer_flight::Claim;
use peer_view::ByteView;
use std::sync::Wait;
use std::sync::ledger::Ledger;
use test_support::all_called;

// The claim of an ask for the key `k`, between whose halves the worker fills the flight that is open for it. None where
// memory was refused, or the value was kept before.
fn ask_by_halves<L: Ledger, R: Wait>(
    rt: &R,
    desk: &mut Desk<Numbering, L>,
) -> Option<Claim<Numbering>> {
    let key = ByteView::copy_of(desk.alloc, b"k").ok()?;
    let Ok(None) = desk.pool.hit(rt, &mut desk.seats.conn, ECHO, b"k") else {
        return None;
    };
    let fill = &mut desk.seats.fill;
    desk.pool.work_some(rt, desk.alloc, fill, 1, &NoGate);
    let conn = &mut desk.seats.conn;
    desk.pool.want(rt, desk.alloc, conn, ECHO, key).ok()
}

/// Two asks for one key, the second by halves, and then the worker fills what was asked for: whether both claims showed
/// the value of the source's first call.
struct AskTwice;

impl Steps for AskTwice {
    type Source = Numbering;

    type Seen = [bool; 2];

    fn take<L: Ledger, R: Wait>(&self, rt: &R, desk: &mut Desk<Numbering, L>) -> Option<[bool; 2]> {
        let first = desk.ask(rt, ECHO, b"k");
        let second = ask_by_halves(rt, desk);
        desk.work(rt, 1, &NoGate);
        let shown = [is_shown_by(&first, b"k1"), is_shown_by(&second, b"k1")];
        drop(first);
        drop(second);
        Some(shown)
    }
}

#[test]
fn a_value_kept_meanwhile_is_a_rehit(rt: HostRuntime) {
    let report = Report {
        calls: 1,
        rehits: 1,
        ..all_called(2)
    };
    let found = run(&rt, rt.alloc(), Numbering::new(2, 0, 0), 6, &AskTwice);
    assert_eq!(rt; found, Some(([true; 2], report)));
}
