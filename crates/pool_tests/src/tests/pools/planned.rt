//! Caches of groups that have plans of their own: how much each keeps, and which keys are found again.
ghost use Rattle.std.specs.Prelude.{◌≡◌};

use super::desk::Desk;
use super::sharded::hits;
use crate::tests::values::{ECHO, SQUARE};
use peer_fill::{Bounds, CacheCounts, CachePlan, Caching};
use peer_source::{DemoSource, Lost};
use std::alloc::Global;
use std::marker::Brand;
use std::num::NonZeroUsize;
use std::sync::Wait;
use std::sync::ledger::{Blank, Ledger};
use test_support::seed;

/// Which numbers are asked for, in each of the groups `echo` and `square`: those up to one, and once more those from another one on.
#[derive(Clone, Copy)]
struct Asked {
    numbers: u64,
    again_from: [u64; 2],
}

/// What the caches of a group kept and had lost, and how many of the numbers that were asked for again were hits.
#[derive(Clone, Copy, Debug, PartialEq, Eq)]
struct SeenOfGroup {
    counts: CacheCounts,
    hits: u64,
}

/// The same of both groups.
#[derive(Clone, Copy, Debug, PartialEq, Eq)]
struct Seen {
    echo: SeenOfGroup,
    square: SeenOfGroup,
}

// Asks for the numbers in both groups, one after the other.
fn ask_both<L: Ledger, R: Wait>(
    rt: &R,
    alloc: Global,
    desk: &mut Desk<DemoSource, L>,
    asked: Asked,
) -> Option<Seen> {
    let Asked {
        numbers,
        again_from,
    } = asked;
    hits(rt, alloc, desk, ECHO, 0, numbers)?;
    hits(rt, alloc, desk, SQUARE, 0, numbers)?;
    let (echo, square) = (desk.cache_counts(rt, ECHO), desk.cache_counts(rt, SQUARE));
    Some(Seen {
        echo: SeenOfGroup {
            counts: echo,
            hits: hits(rt, alloc, desk, ECHO, again_from[0], numbers)?,
        },
        square: SeenOfGroup {
            counts: square,
            hits: hits(rt, alloc, desk, SQUARE, again_from[1], numbers)?,
        },
    })
}

// The same over a pool of its own, with caches as planned.
fn asked_of<L: Ledger, R: Wait>(
    rt: &R,
    alloc: Global,
    caching: Caching<'_>,
    asked: Asked,
    blank: Blank,
) -> Option<Seen>
    requires name { blank.name ≡ L.name }
    requires parts { (blank.parts ≡ L.parts) × (blank.parts ≡ 16) }
{
    let mut desk = Desk::<DemoSource, L>::open_with(alloc, DemoSource, caching, blank)?;
    let seen = ask_both(rt, alloc, &mut desk, asked);
    desk.close(rt)?;
    seen
}

// So many shards, each of so many keys at most. An entry counts 10 bytes more than its key and its value.
fn plan_of([shards, most]: [usize; 2]) -> Option<CachePlan> {
    let bounds = Bounds {
        limit: 1_000_000,
        most: NonZeroUsize::new(most)?,
        each: 10,
    };
    Some(CachePlan::Sharded(NonZeroUsize::new(shards)?, bounds))
}

// The same with a plan for all groups, and with one for `echo` and one for `square` of their own.
fn seen_of<R: Wait>(
    rt: &R,
    alloc: Global,
    [all, echo, square]: [[usize; 2]; 3],
    asked: Asked,
) -> Option<Seen> {
    let own = [plan_of(echo)?, plan_of(square)?];
    let caching = Caching {
        plan: plan_of(all)?,
        own: &own,
        seed: seed()?,
    };
    asked_of::<Brand, R>(rt, alloc, caching, asked, Blank::new(16))
}

// The same if `echo` alone has a plan of its own.
fn seen_of_echo<R: Wait>(
    rt: &R,
    alloc: Global,
    [all, echo]: [[usize; 2]; 2],
    asked: Asked,
) -> Option<Seen> {
    let own = [plan_of(echo)?];
    let caching = Caching {
        plan: plan_of(all)?,
        own: &own,
        seed: seed()?,
    };
    asked_of::<Brand, R>(rt, alloc, caching, asked, Blank::new(16))
}

// What caches keep that have lost so many entries for want of keys.
fn counts(entries: u64, bytes: u64, by_keys: u64) -> CacheCounts {
    let lost = Lost {
        by_keys,
        ..Lost::NONE
    };
    CacheCounts {
        entries,
        bytes,
        lost,
    }
}

// Of 0 to 4 `echo` keeps the last three, each with a value of one byte; `square` keeps all, the last one with 16.
#[test]
fn each_group_keeps_what_its_own_plan_says(rt: HostRuntime) {
    let asked = Asked {
        numbers: 5,
        again_from: [2, 0],
    };
    let seen = Some(Seen {
        echo: SeenOfGroup {
            counts: counts(3, 3 * 12, 2),
            hits: 3,
        },
        square: SeenOfGroup {
            counts: counts(5, 4 * 12 + 13, 0),
            hits: 5,
        },
    });
    let own = seen_of(&rt, rt.alloc(), [[1, 1], [1, 3], [1, 1000]], asked);
    let echo = seen_of_echo(&rt, rt.alloc(), [[1, 1000], [1, 3]], asked);
    assert_eq!(rt; own, seen);
    assert_eq!(rt; echo, seen);
}

// 300 keys of `echo` in one shard of 10, beside 64 shards of `square` of 300 keys each, and the other way round.
#[test]
fn a_group_has_its_own_number_of_shards(rt: HostRuntime) {
    for (plans, again_from, kept) in [
        ([[2, 1], [1, 10], [64, 300]], [290, 0], (10, 300)),
        ([[2, 1], [64, 300], [1, 10]], [0, 290], (300, 10)),
        ([[2, 1], [1, 300], [64, 300]], [0, 0], (300, 300)),
        ([[2, 1], [64, 300], [64, 300]], [0, 0], (300, 300)),
    ] {
        let asked = Asked {
            numbers: 300,
            again_from,
        };
        let seen = seen_of(&rt, rt.alloc(), plans, asked);
        let entries = seen.map(|seen| (seen.echo.counts.entries, seen.square.counts.entries));
        let hits = seen.map(|seen| (seen.echo.hits, seen.square.hits));
        assert!(rt; entries == Some(kept) && hits == Some(kept), "{plans:?}");
    }
}
