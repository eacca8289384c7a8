//! The numbers that the page tells of each group.
ghost use Rattle.std.specs.Prelude.{◌≡◌};
ghost use Rattle.peer_stats.specs.Groups.{number_of};

use crate::counts::GroupCounts;

/// A number that the page tells of each group.
#[derive(Clone, Copy)]
pub(crate) enum GroupNumber {
    Hits,
    Led,
    Joined,
    Calls,
    Rehits,
    NoSuchKey,
    Status,
    Unreached,
    Late,
    Lost,
    Malformed,
    TooLong,
    Memory,
    Entries,
    Bytes,
    LimitEntries,
    LimitBytes,
    EvictedByBytes,
    EvictedByKeys,
    TooLarge,
}

impl GroupNumber {
    /// This number of a group, none if it has no bound.
    pub(crate) fn of(self, group: &GroupCounts<'_>) -> Option<u64>
        ensures { result ≡ number_of self group.now }
    {
        match self {
            GroupNumber::Hits => Some(group.asks.hits),
            GroupNumber::Led => Some(group.asks.led),
            GroupNumber::Joined => Some(group.asks.joined),
            GroupNumber::Calls => Some(group.fills.calls),
            GroupNumber::Rehits => Some(group.fills.rehits),
            GroupNumber::NoSuchKey => Some(group.failures.no_such_key),
            GroupNumber::Status => Some(group.failures.status),
            GroupNumber::Unreached => Some(group.failures.unreached),
            GroupNumber::Late => Some(group.failures.late),
            GroupNumber::Lost => Some(group.failures.lost),
            GroupNumber::Malformed => Some(group.failures.malformed),
            GroupNumber::TooLong => Some(group.failures.too_long),
            GroupNumber::Memory => Some(group.failures.memory),
            GroupNumber::Entries => Some(group.cache.entries),
            GroupNumber::Bytes => Some(group.cache.bytes),
            GroupNumber::LimitEntries => group.limits.entries,
            GroupNumber::LimitBytes => Some(group.limits.bytes),
            GroupNumber::EvictedByBytes => Some(group.cache.evicted_by_bytes),
            GroupNumber::EvictedByKeys => Some(group.cache.evicted_by_keys),
            GroupNumber::TooLarge => Some(group.cache.too_large),
        }
    }
}
