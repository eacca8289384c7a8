//! What is counted of each service.

/// How an attempt to connect to a service ended.
#[derive(Clone, Copy, Debug, PartialEq, Eq)]
pub enum ConnectEnd {
    /// A connection was made.
    Made,
    /// The address refused it.
    Refused,
    /// None was made in the time of the address, or of the value.
    Late,
    /// It failed for another reason.
    Failed,
}

/// The attempts to connect to a service, by how they ended.
#[derive(Clone, Copy, Debug, PartialEq, Eq)]
pub struct ConnectCounts {
    pub made: u64,
    pub refused: u64,
    pub late: u64,
    pub failed: u64,
}

/// The replies of a service, by their statuses.
#[derive(Clone, Copy, Debug, PartialEq, Eq)]
pub struct StatusCounts {
    /// 200.
    pub ok: u64,
    /// 404.
    pub no_such_key: u64,
    /// 100 to 199.
    pub informational: u64,
    /// 201 to 299.
    pub successful: u64,
    /// 300 to 399.
    pub redirection: u64,
    /// Others from 400 to 499.
    pub client_error: u64,
    /// All others.
    pub server_error: u64,
}

/// What threads that fetch have of a service at the moment.
#[derive(Clone, Copy, Debug, PartialEq, Eq)]
pub struct ServiceHeld {
    /// The connections on which a value is under way, also those that are not made yet.
    pub busy: u64,
    /// The connections that are kept for another value.
    pub kept: u64,
    /// The keys that wait until the service may be asked for them.
    pub waiting: u64,
    /// The addresses that are used.
    pub used: u64,
    /// The addresses that rest, or have rested and were not tried since.
    pub resting: u64,
}

/// A service, by its name, and what was counted of it.
#[derive(Clone, Copy, Debug, PartialEq, Eq)]
pub struct ServiceCounts<'n> {
    pub name: &'n [u8],
    pub held: ServiceHeld,
    pub connects: ConnectCounts,
    pub replies: StatusCounts,
    /// The requests that were made once more, since a kept connection had ended.
    pub second_requests: u64,
    /// The look-ups of its name that found addresses.
    pub lookups_ok: u64,
    /// The look-ups of its name that found none.
    pub lookups_failed: u64,
}

impl ServiceHeld {
    /// Nothing.
    pub const NONE: ServiceHeld = ServiceHeld {
        busy: 0,
        kept: 0,
        waiting: 0,
        used: 0,
        resting: 0,
    };
}
