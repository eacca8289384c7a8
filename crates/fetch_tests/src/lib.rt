//! Tests of a fetch thread beside an origin in the same process: what each kind of reply gives, that hundreds of values are
//! under way, that no wake-up is lost, and how often an origin is asked.
//!
//! It stands on the threads of `peer_fetch`, the wake-ups of `peer_runtime`, the server of `peer_loop`, the pools of `peer_fill`
//! and the origins of `peer_origin`. It has tests alone and promises nothing: no clause says what a socket carried.
#![tactic(auto)]

#[cfg(test)]
mod tests;
