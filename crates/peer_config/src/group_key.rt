//! The keys that a group of a file may have.

use peer_flags::{WordFault, bytes_in, cache_keys_in, time_in, under_way_in};

/// A key that a group may have.
#[derive(Clone, Copy, PartialEq, Eq)]
pub(crate) enum GroupKey {
    Url,
    Table,
    Header,
    Timeout,
    ConnectTimeout,
    UnderWay,
    Cache,
    CacheKeys,
}

impl GroupKey {
    /// The key of this name, if a group may have one.
    pub(crate) fn named(name: &str) -> Option<GroupKey> {
        match name {
            "url" => Some(GroupKey::Url),
            "table" => Some(GroupKey::Table),
            "header" => Some(GroupKey::Header),
            "timeout" => Some(GroupKey::Timeout),
            "connect_timeout" => Some(GroupKey::ConnectTimeout),
            "under_way" => Some(GroupKey::UnderWay),
            "cache" => Some(GroupKey::Cache),
            "cache_keys" => Some(GroupKey::CacheKeys),
            _ => None,
        }
    }

    /// Whether it is for groups whose values services have, and for no other.
    pub(crate) fn is_for_services(self) -> bool {
        matches!(
            self,
            GroupKey::Header | GroupKey::Timeout | GroupKey::ConnectTimeout | GroupKey::UnderWay
        )
    }

    /// Why this word cannot stand for it, if it cannot.
    pub(crate) fn word_fault(self, word: &str) -> Option<WordFault> {
        match self {
            GroupKey::Url | GroupKey::Table | GroupKey::Header => None,
            GroupKey::Timeout | GroupKey::ConnectTimeout => time_in(word).err(),
            GroupKey::UnderWay => under_way_in(word).err(),
            GroupKey::Cache => bytes_in(word).err(),
            GroupKey::CacheKeys => cache_keys_in(word).err(),
        }
    }
}
