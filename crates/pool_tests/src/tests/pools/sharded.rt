//! Caches of other bounds than groupcache's, and shards: which keys are found again, and what was lost.
ghost use Rattle.std.specs.Prelude.{◌≡◌, ◌<◌};

use super::desk::Desk;
use crate::tests::values::ECHO;
use peer_fill::{Bounds, CacheCounts, CachePlan, Caching, NoGate};
use peer_flight::Claim;
use peer_source::{DemoSource, GroupId, Lost};
use std::alloc::Global;
use std::marker::Brand;
use std::num::NonZeroUsize;
use std::sync::Wait;
use std::sync::ledger::{Blank, Ledger};
use test_support::seed_of;

/// Which keys are asked for: numbers from 0 on, one of so many letters, and then the numbers of a range once more.
#[derive(Clone, Copy)]
struct Asked {
    numbers: u64,
    letters: usize,
    again_from: u64,
}

// Asks for a key of a group and has the worker run after it: whether it was a hit. None if memory was refused.
fn is_hit<L: Ledger, R: Wait>(
    rt: &R,
    desk: &mut Desk<DemoSource, L>,
    group: GroupId,
    key: &[u8],
) -> Option<bool>
    requires { group.number < 2 }
{
    let claim = desk.ask(rt, group, key)?;
    let is_ready = matches!(&claim, Claim::Ready(_));
    drop(claim);
    desk.work(rt, 1, &NoGate);
    Some(is_ready)
}

/// How many numbers of a range were hits in a group, one after the other.
pub(super) fn hits<L: Ledger, R: Wait>(
    rt: &R,
    alloc: Global,
    desk: &mut Desk<DemoSource, L>,
    group: GroupId,
    from: u64,
    to: u64,
) -> Option<u64>
    requires { group.number < 2 }
{
    let mut hits = 0u64;
    for number in from..to {
        let key = format!(in alloc; "{number}").ok()?;
        if is_hit(rt, desk, group, key.as_bytes())? {
            hits = hits.wrapping_add(1);
        }
    }
    Some(hits)
}

// How many of the numbers that were asked for again were hits, and what the caches of `echo` kept and had lost before.
fn ask_all<L: Ledger, R: Wait>(
    rt: &R,
    alloc: Global,
    desk: &mut Desk<DemoSource, L>,
    asked: Asked,
) -> Option<(u64, CacheCounts)> {
    hits(rt, alloc, desk, ECHO, 0, asked.numbers)?;
    if asked.letters > 0 {
        let mut key = Vec::new(alloc);
        key.resize(asked.letters, b'x').ok()?;
        is_hit(rt, desk, ECHO, key.as_slice())?;
    }
    let counts = desk.cache_counts(rt, ECHO);
    let again = hits(rt, alloc, desk, ECHO, asked.again_from, asked.numbers)?;
    Some((again, counts))
}

// The same over a pool of its own, with caches as planned.
fn asked_of<L: Ledger, R: Wait>(
    rt: &R,
    alloc: Global,
    caching: Caching<'_>,
    asked: Asked,
    blank: Blank,
) -> Option<(u64, CacheCounts)>
    requires name { blank.name ≡ L.name }
    requires parts { (blank.parts ≡ L.parts) × (blank.parts ≡ 16) }
{
    let mut desk = Desk::<DemoSource, L>::open_with(alloc, DemoSource, caching, blank)?;
    let seen = ask_all(rt, alloc, &mut desk, asked);
    desk.close(rt)?;
    seen
}

// The same with so many shards of these bounds, and a seed by this byte.
fn seen_of<R: Wait>(
    rt: &R,
    alloc: Global,
    shards: usize,
    [limit, most, each]: [u64; 3],
    seed: u8,
    asked: Asked,
) -> Option<(u64, CacheCounts)> {
    let bounds = Bounds {
        limit,
        most: NonZeroUsize::new(most as usize)?,
        each,
    };
    let caching = Caching {
        plan: CachePlan::Sharded(NonZeroUsize::new(shards)?, bounds),
        own: &[],
        seed: seed_of(seed)?,
    };
    asked_of::<Brand, R>(rt, alloc, caching, asked, Blank::new(16))
}

// What caches keep that lost nothing.
fn kept(entries: u64, bytes: u64) -> CacheCounts {
    CacheCounts {
        entries,
        bytes,
        lost: Lost::NONE,
    }
}

#[test]
fn each_key_is_found_again_in_its_shard(rt: HostRuntime) {
    let asked = Asked {
        numbers: 300,
        letters: 0,
        again_from: 0,
    };
    // 10 keys of one digit, 90 of two and 200 of three, each with a value as long and 10 bytes more.
    let bytes = 10 * 12 + 90 * 14 + 200 * 16;
    for shards in [1, 2, 64] {
        let seen = seen_of(&rt, rt.alloc(), shards, [1_000_000, 1000, 10], 0, asked);
        assert_eq!(rt; seen, Some((300, kept(300, bytes))), "{shards} shards");
    }
}

// Entries of 64 keys in 8 shards of 2: which of them are left goes by the seed.
#[test]
fn a_seed_says_in_which_shard_a_key_is(rt: HostRuntime) {
    let asked = Asked {
        numbers: 64,
        letters: 0,
        again_from: 48,
    };
    let mut seen = [0u64; 4];
    for seed in 0..4 {
        let found = seen_of(&rt, rt.alloc(), 8, [1_000_000, 2, 10], seed as u8, asked);
        assert!(rt;
            matches!(found, Some((_, counts)) if counts.entries == 16 && counts.lost.by_keys == 48)
        );
        seen[seed] = found.map_or(0, |found| found.0);
    }
    assert!(rt; seen.iter().any(|hits| *hits != seen[0]), "{seen:?}");
}

// The entry of 500,000 letters takes 1,000,920 of 1,048,576 bytes, and leaves room for 101 keys of four digits, of 468 bytes each.
#[test]
fn one_value_pushes_out_thousands(rt: HostRuntime) {
    let asked = Asked {
        numbers: 2000,
        letters: 500_000,
        again_from: 1899,
    };
    let seen = seen_of(&rt, rt.alloc(), 1, [1_048_576, 1_000_000, 460], 0, asked);
    let lost = Lost {
        by_bytes: 1899,
        ..Lost::NONE
    };
    let counts = CacheCounts {
        lost,
        ..kept(102, 1_000_920 + 101 * 468)
    };
    assert_eq!(rt; seen, Some((101, counts)));
}

#[test]
fn there_are_no_more_entries_than_there_may_be(rt: HostRuntime) {
    let asked = Asked {
        numbers: 5,
        letters: 0,
        again_from: 2,
    };
    let seen = seen_of(&rt, rt.alloc(), 1, [1000, 3, 10], 0, asked);
    let lost = Lost {
        by_keys: 2,
        ..Lost::NONE
    };
    assert_eq!(rt;
        seen,
        Some((
            3,
            CacheCounts {
                lost,
                ..kept(3, 36)
            }
        ))
    );
}

#[test]
fn a_value_larger_than_its_shard_changes_nothing(rt: HostRuntime) {
    let asked = Asked {
        numbers: 4,
        letters: 500,
        again_from: 0,
    };
    let seen = seen_of(&rt, rt.alloc(), 1, [1000, 100, 100], 0, asked);
    let lost = Lost {
        too_large: 1,
        ..Lost::NONE
    };
    assert_eq!(rt;
        seen,
        Some((
            4,
            CacheCounts {
                lost,
                ..kept(4, 408)
            }
        ))
    );
}

#[test]
fn shards_share_the_bytes_and_the_keys(rt: HostRuntime) {
    const MIB: u64 = 1 << 20;
    for (bytes, keys, shards, limit, most) in [
        (0, None, 1, 0, u64::MAX),
        (31 * MIB, None, 1, 31 * MIB, u64::MAX),
        (32 * MIB, None, 2, 16 * MIB, u64::MAX / 2),
        (64 * MIB, None, 4, 16 * MIB, u64::MAX / 4),
        (1 << 30, None, 64, 16 * MIB, u64::MAX / 64),
        (1 << 40, None, 64, 1 << 34, u64::MAX / 64),
        (1 << 30, Some(1), 1, 1 << 30, 1),
        (1 << 30, Some(4096), 4, 1 << 28, 1024),
        (1 << 30, Some(1_000_000), 64, 16 * MIB, 15_625),
    ] {
        let CachePlan::Sharded(count, bounds) = CachePlan::sharded(bytes, keys) else {
            assert!(rt; false, "one cache");
            return;
        };
        let seen = (count.get() as u64, bounds.limit, bounds.most.get() as u64);
        assert_eq!(rt; seen, (shards, limit, most), "{bytes} bytes, {keys:?} keys");
    }
}
