//! What the page tells of groups.
ghost use Rattle.std.specs.Prelude.{◌≡◌, ◌++◌, codes, flat_map, OnOk};
ghost use Rattle.peer_stats.specs.Groups.{asks_text, calls_text, each_text, group_failures_text, group_text};
ghost use Rattle.peer_stats.specs.Groups.{groups_text, kept_text, limits_text, lost_text};

use crate::counts::GroupCounts;
use crate::family::{put_bound, put_family};
use crate::group_number::GroupNumber;
use crate::label::put_label;
use std::alloc::AllocError;

// Appends a number of a group, with its name and the labels that follow the group's.
fn put_group(
    page: &mut Vec<u8>,
    name: &[u8],
    labels: &[u8],
    number: GroupNumber,
    group: &GroupCounts<'_>,
) -> Result<(), AllocError>
    ensures { OnOk result (page.new.items ≡ page.old.items ++ group_text name.now labels.now number group.now) }
{
    page.extend_from_slice(name)?;
    page.extend_from_slice(b"{group=\"")?;
    put_label(page, group.name)?;
    page.extend_from_slice(b"\"")?;
    page.extend_from_slice(labels)?;
    page.extend_from_slice(b"} ")?;
    put_bound(page, number.of(group))?;
    Ok(())
}

// Appends that number of each group.
fn put_each(
    page: &mut Vec<u8>,
    name: &[u8],
    labels: &[u8],
    number: GroupNumber,
    groups: &[GroupCounts<'_>],
) -> Result<(), AllocError>
    ensures { OnOk result (page.new.items ≡ page.old.items ++ each_text name.now labels.now number groups.now) }
{
    for group in groups {
        put_group(page, name, labels, number, group)?;
    }
    Ok(())
}

// Appends such numbers, each with its labels.
fn put_group_rows(
    page: &mut Vec<u8>,
    name: &[u8],
    rows: &[(&[u8], GroupNumber)],
    groups: &[GroupCounts<'_>],
) -> Result<(), AllocError>
    ensures { OnOk result (page.new.items ≡ page.old.items ++ flat_map (λ r. each_text name.now r.0.now r.1 groups.now) rows.now) }
{
    for row in rows {
        put_each(page, name, row.0, row.1, groups)?;
    }
    Ok(())
}

// Appends the requests for values of each group, by what was found.
fn put_asks(page: &mut Vec<u8>, groups: &[GroupCounts<'_>]) -> Result<(), AllocError>
    ensures { OnOk result (page.new.items ≡ page.old.items ++ asks_text groups.now) }
{
    put_family(
        page,
        b"peer_front_group_asks_total",
        b"counter",
        b"Requests for a value of the group, by what was found: hit, a value; led, nothing; joined, that it is fetched.",
    )?;
    put_group_rows(
        page,
        b"peer_front_group_asks_total",
        &[
            (b",found=\"hit\"", GroupNumber::Hits),
            (b",found=\"led\"", GroupNumber::Led),
            (b",found=\"joined\"", GroupNumber::Joined),
        ],
        groups,
    )?;
    Ok(())
}

// Appends what became of the keys of each group that nobody had.
fn put_calls(page: &mut Vec<u8>, groups: &[GroupCounts<'_>]) -> Result<(), AllocError>
    ensures { OnOk result (page.new.items ≡ page.old.items ++ calls_text groups.now) }
{
    put_family(
        page,
        b"peer_front_group_calls_total",
        b"counter",
        b"Keys of the group for which its source was called.",
    )?;
    put_each(
        page,
        b"peer_front_group_calls_total",
        b"",
        GroupNumber::Calls,
        groups,
    )?;
    put_family(
        page,
        b"peer_front_group_rehits_total",
        b"counter",
        b"Keys of the group whose value its cache had before its source was called.",
    )?;
    put_each(
        page,
        b"peer_front_group_rehits_total",
        b"",
        GroupNumber::Rehits,
        groups,
    )?;
    Ok(())
}

// Appends the values that the service of each group did not give, by why.
fn put_failures(page: &mut Vec<u8>, groups: &[GroupCounts<'_>]) -> Result<(), AllocError>
    ensures { OnOk result (page.new.items ≡ page.old.items ++ group_failures_text groups.now) }
{
    put_family(
        page,
        b"peer_front_group_origin_failures_total",
        b"counter",
        b"Values of the group that its service did not give, by why.",
    )?;
    put_group_rows(
        page,
        b"peer_front_group_origin_failures_total",
        &[
            (b",kind=\"no_such_key\"", GroupNumber::NoSuchKey),
            (b",kind=\"status\"", GroupNumber::Status),
            (b",kind=\"unreached\"", GroupNumber::Unreached),
            (b",kind=\"late\"", GroupNumber::Late),
            (b",kind=\"lost\"", GroupNumber::Lost),
            (b",kind=\"malformed\"", GroupNumber::Malformed),
            (b",kind=\"too_long\"", GroupNumber::TooLong),
            (b",kind=\"memory\"", GroupNumber::Memory),
        ],
        groups,
    )?;
    Ok(())
}

// Appends what the cache of each group has.
fn put_kept(page: &mut Vec<u8>, groups: &[GroupCounts<'_>]) -> Result<(), AllocError>
    ensures { OnOk result (page.new.items ≡ page.old.items ++ kept_text groups.now) }
{
    put_family(
        page,
        b"peer_front_group_cache_entries",
        b"gauge",
        b"Keys in the cache of the group.",
    )?;
    put_each(
        page,
        b"peer_front_group_cache_entries",
        b"",
        GroupNumber::Entries,
        groups,
    )?;
    put_family(
        page,
        b"peer_front_group_cache_bytes",
        b"gauge",
        b"Bytes in the cache of the group: keys, values and what holds them.",
    )?;
    put_each(
        page,
        b"peer_front_group_cache_bytes",
        b"",
        GroupNumber::Bytes,
        groups,
    )?;
    Ok(())
}

// Appends what the cache of each group may have.
fn put_limits(page: &mut Vec<u8>, groups: &[GroupCounts<'_>]) -> Result<(), AllocError>
    ensures { OnOk result (page.new.items ≡ page.old.items ++ limits_text groups.now) }
{
    put_family(
        page,
        b"peer_front_group_cache_limit_entries",
        b"gauge",
        b"Keys that the cache of the group may have; +Inf without such a limit.",
    )?;
    put_each(
        page,
        b"peer_front_group_cache_limit_entries",
        b"",
        GroupNumber::LimitEntries,
        groups,
    )?;
    put_family(
        page,
        b"peer_front_group_cache_limit_bytes",
        b"gauge",
        b"Bytes that the cache of the group may have: keys, values and what holds them.",
    )?;
    put_each(
        page,
        b"peer_front_group_cache_limit_bytes",
        b"",
        GroupNumber::LimitBytes,
        groups,
    )?;
    Ok(())
}

// Appends what left the cache of each group, and what it did not keep.
fn put_lost(page: &mut Vec<u8>, groups: &[GroupCounts<'_>]) -> Result<(), AllocError>
    ensures { OnOk result (page.new.items ≡ page.old.items ++ lost_text groups.now) }
{
    put_family(
        page,
        b"peer_front_group_cache_evictions_total",
        b"counter",
        b"Entries that left the cache of the group to make room, by the bound that was met: bytes, keys.",
    )?;
    put_group_rows(
        page,
        b"peer_front_group_cache_evictions_total",
        &[
            (b",reason=\"bytes\"", GroupNumber::EvictedByBytes),
            (b",reason=\"keys\"", GroupNumber::EvictedByKeys),
        ],
        groups,
    )?;
    put_family(
        page,
        b"peer_front_group_cache_rejected_total",
        b"counter",
        b"Values that the cache of the group did not keep, by why: too_large.",
    )?;
    put_each(
        page,
        b"peer_front_group_cache_rejected_total",
        b",reason=\"too_large\"",
        GroupNumber::TooLarge,
        groups,
    )?;
    Ok(())
}

/// Appends what was counted of each group, and what its cache has and may have, in the order of the groups.
pub(crate) fn put_groups(page: &mut Vec<u8>, groups: &[GroupCounts<'_>]) -> Result<(), AllocError>
    ensures { OnOk result (page.new.items ≡ page.old.items ++ groups_text groups.now) }
{
    put_asks(page, groups)?;
    put_calls(page, groups)?;
    put_failures(page, groups)?;
    put_kept(page, groups)?;
    put_limits(page, groups)?;
    put_lost(page, groups)?;
    Ok(())
}
