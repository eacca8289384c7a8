//! The numbers of groups.

/// The most groups of a pool, and so of a source that it serves.
pub const MAX_GROUPS: usize = 64;

/// The number of a group of a source, from 0.
#[derive(Clone, Copy, Debug, PartialEq, Eq, Hash)]
pub struct GroupId {
    pub number: usize,
}
