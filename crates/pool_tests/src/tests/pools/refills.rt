//! What is made up for the fills of strangers, and how they are counted.

use super::desk::{Desk, Steps, run};
use crate::tests::values::{ECHO, SQUARE, value_of};
use peer_fill::Report;
use peer_flight::Claim;
use peer_source::{DemoSource, Fill, GroupId};
use peer_view::ByteView;
use std::sync::Wait;
use std::sync::ledger::Ledger;
use test_support::all_called;

// The refill where this key's fill of the group came.
fn refill<L: Ledger>(
    desk: &Desk<DemoSource, L>,
    claim: &Claim<DemoSource>,
    group: GroupId,
    key: &[u8],
) -> Option<Fill<DemoSource>> {
    let key = ByteView::copy_of(desk.alloc, key).ok()?;
    let came = Fill::run(desk.alloc, &DemoSource, group, key);
    let refill = desk.pool.refill(desk.alloc, claim, &came).ok();
    drop(came);
    refill?
}

// Whether the refill where this key's fill of the group came is the square of 12. None where there is no refill.
fn is_refilled<L: Ledger>(
    desk: &Desk<DemoSource, L>,
    claim: &Claim<DemoSource>,
    group: GroupId,
    key: &[u8],
) -> Option<bool> {
    let refill = refill(desk, claim, group, key)?;
    let is_square = value_of(&refill) == b"144".as_slice();
    drop(refill);
    Some(is_square)
}

/// Two seats count so many strangers, and one of them asks for the square of 12: whether its claim is refilled from its
/// own fill, from one of another key, and from one of another group.
#[derive(Clone, Copy)]
struct Refills {
    strangers: [u64; 2],
}

impl Steps for Refills {
    type Source = DemoSource;

    type Seen = [Option<bool>; 3];

    fn take<L: Ledger, R: Wait>(
        &self,
        rt: &R,
        desk: &mut Desk<DemoSource, L>,
    ) -> Option<[Option<bool>; 3]> {
        desk.seats.conn.add_strangers(self.strangers[0]);
        desk.seats.other.add_strangers(self.strangers[1]);
        let claim = desk.ask(rt, SQUARE, b"12")?;
        let seen = [
            is_refilled(desk, &claim, SQUARE, b"12"),
            is_refilled(desk, &claim, SQUARE, b"13"),
            is_refilled(desk, &claim, ECHO, b"12"),
        ];
        drop(claim);
        Some(seen)
    }
}

#[test]
fn strangers_are_refilled_and_counted_up_to_the_most(rt: HostRuntime) {
    let report = Report {
        strangers: 3 + (1 << 56),
        calls: 0,
        left: 1,
        ..all_called(1)
    };
    let strangers = [3, u64::MAX];
    let seen = run(&rt, rt.alloc(), DemoSource, 0, &Refills { strangers });
    assert_eq!(rt; seen, Some(([None, Some(true), Some(true)], report)));
}
