//! Tests of whole streams: the bytes that a connection writes and how it ends, for texts in one piece, byte by byte
//! and in two pieces, in one thread and over pools of workers.
//!
//! It stands on the connections of `peer_conn`, the pools of `peer_fill`, the source for demonstrations of
//! `peer_source`, the readers and writers in memory of `peer_view`, and the texts and the plain model of `stream_model`.
//! It has tests alone and promises nothing: what they expect is written down from the forms of requests and replies
//! (RFC 9112, groupcache's `http.go`), and never taken from the program.
#![tactic(auto)]

#[cfg(test)]
mod tests;
