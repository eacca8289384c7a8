//! A lane that is full, and one that carries a claim.
ghost use Rattle.std.specs.Prelude.{◌≡◌};
ghost use Rattle.peer_lane.specs.Lanes.{free_places, IsSameIn};

use super::{has_number, ticket_with};
use crate::tests::values::ECHO;
use peer_flight::Claim;
use peer_lane::{LaneIn, LaneOut, beside, lane};
use peer_source::{DemoSource, Fill};
use peer_view::ByteView;
use peer_wish::{Body, Ticket};
use std::alloc::{AllocError, Global};

// Puts the tickets from 0 on. That the lane takes 64 is proved.
pub(super) fn fill_up(alloc: Global, put: &mut LaneIn<DemoSource>) -> Result<(), AllocError>
    requires { free_places put.old ≡ 64 }
    ensures { IsSameIn put.old put.new }
{
    for number in 0..64 {
        match put.put(ticket_with(alloc, number)?) {
            Ok(()) => {}
            Err(_) => unreachable!(),
        }
    }
    Ok(())
}

// Whether the lane handed the ticket back.
fn hands_back(alloc: Global, put: &mut LaneIn<DemoSource>, number: u8) -> Result<bool, AllocError>
    ensures { IsSameIn put.old put.new }
{
    let ticket = ticket_with(alloc, number)?;
    Ok(has_number(put.put(ticket).err(), number))
}

// Whether the tickets from 2 on come in order, and none behind them.
fn ends_in_order(taken: &mut LaneOut<DemoSource>) -> bool {
    for number in 2..65 {
        if !has_number(taken.take(), number) {
            return false;
        }
    }
    taken.take().is_none()
}

#[test]
fn a_full_lane_hands_the_65th_ticket_back(rt: HostRuntime) {
    let alloc = rt.alloc();
    let (mut put, mut taken) = lane(alloc).expect(&rt, "memory");
    fill_up(alloc, &mut put).expect(&rt, "memory");
    let full = hands_back(alloc, &mut put, 64);
    let first = has_number(taken.take(), 0);
    let again = hands_back(alloc, &mut put, 64);
    assert_eq!(rt; (full, first, again), (Ok(true), true, Ok(false)));
    assert_eq!(rt; beside(&mut put, &mut taken), 64);
    assert!(rt; has_number(Some(taken.take_known()), 1));
    assert!(rt; ends_in_order(&mut taken));
}

// Whether it is the ticket that was put: of a claim with this key, and closing.
fn is_claim(ticket: Option<Ticket<DemoSource>>, key: &[u8]) -> bool {
    let Some(ticket) = ticket else {
        return false;
    };
    let flags = ticket.closing && !ticket.bare;
    match ticket.body {
        Body::Claim(claim) => flags && claim.key().as_slice() == key,
        Body::Fault(_) => false,
    }
}

#[test]
fn a_claim_comes_as_it_was_put(rt: HostRuntime) {
    let alloc = rt.alloc();
    let (mut put, mut taken) = lane(alloc).expect(&rt, "memory");
    let key = ByteView::copy_of(alloc, b"k").expect(&rt, "memory");
    let fill = Fill::run(alloc, &DemoSource, ECHO, key);
    let ticket = Ticket {
        closing: true,
        bare: false,
        body: Body::Claim(Claim::Ready(fill)),
    };
    let is_put = put.put(ticket).is_ok();
    assert!(rt; is_put && is_claim(taken.take(), b"k"));
}
