//! Why a request target names no place.

/// The first reason, in this order, why a request target names no group and key; `Memory` comes before those behind
/// `Escape`.
#[derive(Clone, Copy, Debug, PartialEq, Eq)]
pub enum PathFault {
    /// The target is neither an origin form nor an absolute form of `http` (RFC 9112, sections 3.2.1 and 3.2.2).
    Target,
    /// A `%` of the path is not followed by two hexadecimal digits (RFC 3986, section 2.1).
    Escape,
    /// The decoded path does not begin with `/_groupcache/`.
    Outside,
    /// No `/` follows the group.
    NoKey,
    /// There was no memory to decode the path into.
    Memory,
}
