//! Tests of lines for whoever watches a server: as text and as JSON, what is escaped in them, and which time a number is; and of the
//! records of replies, on their way to an access log.
//!
//! It stands on `peer_log` and `peer_access`, and uses their public calls alone. It has tests alone and promises nothing: what they expect is written
//! out.
#![tactic(auto)]

#[cfg(test)]
mod tests;
