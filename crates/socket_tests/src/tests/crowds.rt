//! Whom a server keeps and whom it gives up, by how many of its seats are taken.

use super::actions::Actions;
use super::plans::{Case, Expect, Kind, Plan, attentive, case_of, plan_of};
use super::servers::is_met;
use super::visits::Visit;
use super::visits::Visit::{Asks, Comes, Pauses, SaysNothing};
use peer_runtime::Limits;
use std::time::Duration;

// Limits by which a client may be silent for so many milliseconds where all seats are taken, and else for long.
fn silence_when_full(milliseconds: u64) -> Limits {
    Limits {
        silence_when_full: Duration::from_millis(milliseconds),
        ..attentive()
    }
}

// Limits by which a client may take so many milliseconds for a request where all seats are taken, and else long.
fn request_when_full(milliseconds: u64) -> Limits {
    Limits {
        request_when_full: Duration::from_millis(milliseconds),
        ..attentive()
    }
}

// The case of a server in threads.
fn crowd(plan: Plan, limits: Limits, visits: &[Visit], asked: u64) -> Case<'_> {
    let (actions, expect) = (Actions::Visits(visits), Expect::Asked(asked));
    case_of(Kind::Seats, plan.within(limits), actions, expect)
}

// The client that is answered sends for longer than one may that gets no reply, and is answered meanwhile.
#[test]
fn a_client_is_given_up_only_where_no_seat_is_free(rt: HostRuntime) {
    let soon = silence_when_full(100);
    for (what, case) in [
        (
            "a silent client is kept beside a free seat",
            crowd(plan_of(1, 2, 1), soon, &[Pauses(500), Comes], 2),
        ),
        (
            "more workers than seats are no free seats",
            crowd(plan_of(2, 1, 2), soon, &[SaysNothing, Asks], 1),
        ),
        (
            "a seat that was left is free",
            crowd(
                plan_of(1, 2, 2),
                silence_when_full(500),
                &[Asks, Pauses(1000), Comes, Comes],
                3,
            ),
        ),
        (
            "a seat that was used up is not free",
            crowd(plan_of(1, 2, 1), soon, &[Asks, SaysNothing], 1),
        ),
        (
            "a client that is answered is kept where no seat is free",
            crowd(
                plan_of(1, 1, 1),
                request_when_full(1000),
                &[Pauses(2000)],
                2,
            ),
        ),
    ] {
        assert!(rt; is_met(&rt, case), "{what}");
    }
}
