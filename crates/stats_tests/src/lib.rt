//! Tests of the page of counters: its text, sums of slots, and what clients of its server get.
//!
//! It stands on `peer_stats`, and uses its public calls alone. It has tests alone and promises nothing: what they expect is
//! written out by the rules of Prometheus' text format.
#![tactic(auto)]

#[cfg(test)]
mod tests;
