//! Tests of both servers on real sockets: what clients receive, whom a server gives up, and that it ends.
//!
//! It stands on the servers of `peer_socket` and `peer_loop`, the source for demonstrations of `peer_source`, and what tests
//! share in `test_support`. It has tests alone and promises nothing: no clause says what a socket carried.
#![tactic(auto)]

#[cfg(test)]
mod tests;
