//! Where a request target leads: a group and a key of it, or the first fault that applies.
//!
//! The target is cut before its query, an absolute form of `http` is reduced to its path, the path's escapes are
//! decoded once, groupcache's base path is removed, and what is left is split into group and key
//! (RFC 9112, section 3.2; RFC 3986, section 2.1; groupcache `http.go`, `ServeHTTP`).
//!
//! It stands on `memchr` for the searches and on `percent_encoding` for the decoding. A path without an escape is
//! borrowed from the target and takes no memory; any other is decoded into one buffer.
#![tactic(auto)]

mod escape;
mod fault;
mod place;
mod target;

pub use fault::PathFault;
pub use place::{Place, locate};
