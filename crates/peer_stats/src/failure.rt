//! Why an origin gave no value.

/// Why an origin gave no value: the kinds that are counted apart.
#[derive(Clone, Copy, Debug, PartialEq, Eq)]
pub enum OriginFailure {
    /// It has no such key: it answered 404.
    NoSuchKey,
    /// It answered another status than 200.
    Status,
    /// It could not be connected to in time.
    Unreached,
    /// The whole reply did not come in time.
    Late,
    /// The connection ended within the reply, or before it.
    Lost,
    /// What came is no reply.
    Malformed,
    /// The value is over the limit.
    TooLong,
    /// Memory was refused.
    Memory,
}
