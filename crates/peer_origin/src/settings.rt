//! What can be set of fetches.

use std::time::Duration;

/// What can be set of fetches. No duration is zero.
#[derive(Clone, Copy, Debug, PartialEq, Eq)]
pub struct FetchSettings {
    /// How long a connection to one address of an origin may take, if its group says nothing else.
    pub connect: Duration,
    /// How long a value may take, connecting and a second request included, if its group says nothing else.
    pub value: Duration,
    /// How long a value may wait until it may be under way.
    pub wait: Duration,
    /// How many values in a row are late at an address until it rests.
    pub rest_after: u32,
    /// How long an address rests at which values are late, or no connection is made.
    pub rest: Duration,
    /// Whether each request has a connection of its own. On one that is used again, bytes that an origin sends unasked
    /// behind the next request cannot be told from its reply.
    pub connection_for_each: bool,
}

impl FetchSettings {
    /// 2 seconds for a connection, 10 for a value and as many to wait, 10 of rest after three late values, and connections are used
    /// again.
    pub fn usual() -> FetchSettings {
        FetchSettings {
            connect: Duration::from_secs(2),
            value: Duration::from_secs(10),
            wait: Duration::from_secs(10),
            rest_after: 3,
            rest: Duration::from_secs(10),
            connection_for_each: false,
        }
    }
}
