//! Values that took long, until they are told.

use peer_fetch::{SlowList, SlowValue, SlowValues};
use peer_stats::KeyStart;
use peer_value::Spans;
use std::test::Fail;
use std::time::Duration;

// A value of this group that took so many milliseconds, all of them in the queue.
fn value_of(group: usize, millis: u64) -> SlowValue {
    let whole = Duration::from_millis(millis);
    SlowValue {
        group,
        key: KeyStart::of(b"k"),
        spans: Spans {
            queue: whole,
            connect: Duration::ZERO,
            first_byte: Duration::ZERO,
            whole,
        },
    }
}

#[test]
fn a_value_is_slow_that_takes_longer(rt: HostRuntime) {
    let slow = SlowValues::new(rt.alloc(), Duration::from_millis(200));
    let are = [
        slow.is_slow(value_of(0, 200).spans),
        slow.is_slow(value_of(0, 201).spans),
    ];
    drop(slow);
    assert_eq!(rt; are, [false, true]);
}

#[test]
fn slow_values_are_kept_until_there_are_32(rt: HostRuntime) {
    let mut list = SlowList::new(rt.alloc());
    for group in 0..34usize {
        list.put(value_of(group, 300));
    }
    let first = list.values.first().is_some_and(|value| value.group == 0);
    let last = list.values.last().is_some_and(|value| value.group == 31);
    let counts = (list.values.len() as u64, list.left_out);
    drop(list);
    assert!(rt; first && last);
    assert_eq!(rt; counts, (32, 2));
}

#[test]
fn slow_values_are_told_once(rt: HostRuntime) {
    let slow = SlowValues::new(rt.alloc(), Duration::ZERO);
    for group in 0..33usize {
        slow.note(&rt, value_of(group, 300));
    }
    let SlowList { values, left_out } = slow.take(&rt, rt.alloc());
    let again = slow.take(&rt, rt.alloc());
    let counts = (
        values.len() as u64,
        left_out,
        again.values.len() as u64,
        again.left_out,
    );
    drop(values);
    drop(again);
    drop(slow);
    assert_eq!(rt; counts, (32, 1, 0, 0));
}
