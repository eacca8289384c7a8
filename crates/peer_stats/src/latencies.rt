//! What the page tells of how long things take: histograms, in Prometheus' text format 0.0.4.
ghost use Rattle.std.specs.Prelude.{◌≡◌, ◌++◌, codes, decimal, flat_map, OnOk};
ghost use Rattle.peer_stats.specs.Families.{family_text, number_text, seconds_text};
ghost use Rattle.peer_stats.specs.Labels.{label_text};
ghost use Rattle.peer_stats.specs.Latencies.{bound_bucket_text, bucket_text, each_times_text, fetches_text, first_label_text};
ghost use Rattle.peer_stats.specs.Latencies.{group_times_text, latencies_text, loop_turns_text, only_label_text, queue_text};
ghost use Rattle.peer_stats.specs.Latencies.{time_of, times_text, turns_text, waits_text};

use crate::counts::GroupCounts;
use crate::family::{put_family, put_number, put_seconds};
use crate::label::put_label;
use crate::times::{Bound, LoopTurns, MAX_PLACES, TimeCounts, count_in_first};
use itoa::Buffer;
use std::alloc::AllocError;

// Of what times are told: the label beside the bound of a bucket.
#[derive(Clone, Copy)]
enum Which {
    All,
    Group,
    Loop,
}

// A time that is told of each group.
#[derive(Clone, Copy)]
enum GroupTime {
    Fetches,
    Waits,
}

impl GroupTime {
    // What was counted of it.
    fn of(self, group: &GroupCounts<'_>) -> TimeCounts
        ensures { result ≡ time_of self group.now }
    {
        match self {
            GroupTime::Fetches => group.fetches,
            GroupTime::Waits => group.waits,
        }
    }
}

// Appends the value of a label between what stands before it and after it.
fn put_between(
    page: &mut Vec<u8>,
    before: &[u8],
    value: &[u8],
    after: &[u8],
) -> Result<(), AllocError>
    ensures { OnOk result (page.new.items ≡ page.old.items ++ (before.now ++ label_text value.now ++ after.now)) }
{
    page.extend_from_slice(before)?;
    put_label(page, value)?;
    page.extend_from_slice(after)?;
    Ok(())
}

// Appends what stands before the bound of a bucket.
fn put_first_label(page: &mut Vec<u8>, of: Which, value: &[u8]) -> Result<(), AllocError>
    ensures { OnOk result (page.new.items ≡ page.old.items ++ first_label_text of value.now) }
{
    match of {
        Which::All => Ok(()),
        Which::Group => put_between(page, b"group=\"", value, b"\","),
        Which::Loop => put_between(page, b"loop=\"", value, b"\","),
    }
}

// Appends the same of a number without a bound.
fn put_only_label(page: &mut Vec<u8>, of: Which, value: &[u8]) -> Result<(), AllocError>
    ensures { OnOk result (page.new.items ≡ page.old.items ++ only_label_text of value.now) }
{
    match of {
        Which::All => page.extend_from_slice(b" "),
        Which::Group => put_between(page, b"{group=\"", value, b"\"} "),
        Which::Loop => put_between(page, b"{loop=\"", value, b"\"} "),
    }
}

// Appends how many were counted that are not above a bound.
fn put_bucket(
    page: &mut Vec<u8>,
    name: &[u8],
    of: Which,
    value: &[u8],
    bound: &[u8],
    count: u64,
) -> Result<(), AllocError>
    ensures { OnOk result (page.new.items ≡ page.old.items ++ bucket_text name.now of value.now bound.now count) }
{
    page.extend_from_slice(name)?;
    page.extend_from_slice(b"_bucket{")?;
    put_first_label(page, of, value)?;
    page.extend_from_slice(b"le=\"")?;
    page.extend_from_slice(bound)?;
    page.extend_from_slice(b"\"} ")?;
    put_number(page, count)?;
    Ok(())
}

// Appends the same of one of the bounds.
fn put_bound_bucket(
    page: &mut Vec<u8>,
    name: &[u8],
    of: Which,
    value: &[u8],
    places: &[u64],
    bound: &Bound,
) -> Result<(), AllocError>
    ensures { OnOk result (page.new.items ≡ page.old.items ++ bound_bucket_text name.now of value.now places.now bound.now) }
{
    let count = count_in_first(places, bound.places);
    put_bucket(page, name, of, value, bound.text, count)?;
    Ok(())
}

// Appends the buckets of all bounds.
fn put_bound_buckets(
    page: &mut Vec<u8>,
    name: &[u8],
    of: Which,
    value: &[u8],
    counts: &TimeCounts,
) -> Result<(), AllocError>
    ensures { OnOk result (page.new.items ≡ page.old.items ++ flat_map (bound_bucket_text name.now of value.now counts.now.places)
        counts.now.bounds.now) }
{
    for bound in counts.bounds {
        put_bound_bucket(page, name, of, value, &counts.places, bound)?;
    }
    Ok(())
}

// Appends all of a histogram.
fn put_times(
    page: &mut Vec<u8>,
    name: &[u8],
    of: Which,
    value: &[u8],
    counts: &TimeCounts,
) -> Result<(), AllocError>
    ensures { OnOk result (page.new.items ≡ page.old.items ++ times_text name.now of value.now counts.now) }
{
    let count = count_in_first(&counts.places, MAX_PLACES);
    put_bound_buckets(page, name, of, value, counts)?;
    put_bucket(page, name, of, value, b"+Inf", count)?;
    page.extend_from_slice(name)?;
    page.extend_from_slice(b"_sum")?;
    put_only_label(page, of, value)?;
    put_seconds(page, counts.micros)?;
    page.extend_from_slice(name)?;
    page.extend_from_slice(b"_count")?;
    put_only_label(page, of, value)?;
    put_number(page, count)?;
    Ok(())
}

// Appends the histogram of a group.
fn put_group_times(
    page: &mut Vec<u8>,
    name: &[u8],
    time: GroupTime,
    group: &GroupCounts<'_>,
) -> Result<(), AllocError>
    ensures { OnOk result (page.new.items ≡ page.old.items ++ group_times_text name.now time group.now) }
{
    let counts = time.of(group);
    put_times(page, name, Which::Group, group.name, &counts)?;
    Ok(())
}

// Appends that of each group.
fn put_each_times(
    page: &mut Vec<u8>,
    name: &[u8],
    time: GroupTime,
    groups: &[GroupCounts<'_>],
) -> Result<(), AllocError>
    ensures { OnOk result (page.new.items ≡ page.old.items ++ each_times_text name.now time groups.now) }
{
    for group in groups {
        put_group_times(page, name, time, group)?;
    }
    Ok(())
}

// Appends how long values of each group were under way.
fn put_fetches(page: &mut Vec<u8>, groups: &[GroupCounts<'_>]) -> Result<(), AllocError>
    ensures { OnOk result (page.new.items ≡ page.old.items ++ fetches_text groups.now) }
{
    put_family(
        page,
        b"peer_front_fetch_duration_seconds",
        b"histogram",
        b"Time from when a value of the group was under way until it was there or was given up, second requests included.",
    )?;
    put_each_times(
        page,
        b"peer_front_fetch_duration_seconds",
        GroupTime::Fetches,
        groups,
    )?;
    Ok(())
}

// Appends how long values waited until they were under way.
fn put_queue(page: &mut Vec<u8>, counts: &TimeCounts) -> Result<(), AllocError>
    ensures { OnOk result (page.new.items ≡ page.old.items ++ queue_text counts.now) }
{
    put_family(
        page,
        b"peer_front_queue_duration_seconds",
        b"histogram",
        b"Time from when a fetcher took a key off the queue until its value was under way, or was given up before.",
    )?;
    put_times(
        page,
        b"peer_front_queue_duration_seconds",
        Which::All,
        b"",
        counts,
    )?;
    Ok(())
}

// Appends how long clients waited for values of each group.
fn put_waits(page: &mut Vec<u8>, groups: &[GroupCounts<'_>]) -> Result<(), AllocError>
    ensures { OnOk result (page.new.items ≡ page.old.items ++ waits_text groups.now) }
{
    put_family(
        page,
        b"peer_front_wait_duration_seconds",
        b"histogram",
        b"Time for which the first request of a client that had no reply waited for a value of the group, until its reply could be sent.",
    )?;
    put_each_times(
        page,
        b"peer_front_wait_duration_seconds",
        GroupTime::Waits,
        groups,
    )?;
    Ok(())
}

// Appends how long the turns of a loop took.
fn put_loop_turns(page: &mut Vec<u8>, turns: &LoopTurns) -> Result<(), AllocError>
    ensures { OnOk result (page.new.items ≡ page.old.items ++ loop_turns_text turns.now) }
{
    put_times(
        page,
        b"peer_front_loop_turn_duration_seconds",
        Which::Loop,
        Buffer::new().format(turns.number).as_bytes(),
        &turns.turns,
    )?;
    Ok(())
}

// Appends that of each loop.
fn put_each_turns(page: &mut Vec<u8>, turns: &[LoopTurns]) -> Result<(), AllocError>
    ensures { OnOk result (page.new.items ≡ page.old.items ++ flat_map loop_turns_text turns.now) }
{
    for of_loop in turns {
        put_loop_turns(page, of_loop)?;
    }
    Ok(())
}

// Appends how long the turns of all loops took.
fn put_turns(page: &mut Vec<u8>, turns: &[LoopTurns]) -> Result<(), AllocError>
    ensures { OnOk result (page.new.items ≡ page.old.items ++ turns_text turns.now) }
{
    put_family(
        page,
        b"peer_front_loop_turn_duration_seconds",
        b"histogram",
        b"Time of a turn of the loop; of one before a wait for events what is over the longest wait, if that is 10 ms or more.",
    )?;
    put_each_turns(page, turns)?;
    Ok(())
}

/// Appends how long values of groups take, in the order of the groups, and the turns of loops.
pub(crate) fn put_latencies(
    page: &mut Vec<u8>,
    queued: &TimeCounts,
    groups: &[GroupCounts<'_>],
    turns: &[LoopTurns],
) -> Result<(), AllocError>
    ensures { OnOk result (page.new.items ≡ page.old.items ++ latencies_text queued.now groups.now turns.now) }
{
    put_fetches(page, groups)?;
    put_queue(page, queued)?;
    put_waits(page, groups)?;
    put_turns(page, turns)?;
    Ok(())
}
