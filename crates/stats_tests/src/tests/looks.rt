//! How often a loop is found in the same turn before it stands still.

use peer_stats::{ASLEEP, Looks};

// Whether a loop stands still of which so many looks find this turn.
fn stands_still(turn: u64, count: u32) -> bool {
    let mut looks = Looks::NONE;
    for _ in 0..count {
        looks = looks.and(turn);
    }
    looks.stands_still()
}

#[test]
fn a_loop_stands_still_in_one_turn(rt: HostRuntime) {
    assert_eq!(rt; [stands_still(9, 5), stands_still(9, 6)], [false, true]);
    let next = Looks::NONE.and(9).and(9).and(9).and(9).and(9).and(10);
    assert!(rt; !next.stands_still() && !next.and(10).and(10).and(10).and(10).stands_still());
}

#[test]
fn a_loop_that_sleeps_does_not_stand_still(rt: HostRuntime) {
    assert!(rt; !stands_still(ASLEEP, 60));
}
