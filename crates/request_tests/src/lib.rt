//! Tests of request heads, request targets, wishes and replies, of what no clause says.
//!
//! It stands on `peer_head`, `peer_path`, `peer_wish`, `peer_reply`, and on the source for demonstrations of `peer_source`,
//! and uses their public calls alone. It has tests alone and promises nothing: what they expect is written out, by RFC
//! 9110, 9112 and 3986 and groupcache's `http.go`.
#![tactic(auto)]

#[cfg(test)]
mod tests;
