//! Tests of pools, and of what they stand on: waits, flights, lanes, and the events over plain data.
//!
//! It stands on the pools of `peer_fill`, the flights of `peer_flight`, the lanes of `peer_lane`, the waits of
//! `peer_wait` and the worlds of `flight_world`. It has tests alone and promises nothing: they show what no clause says,
//! that calls succeed, what claims show and pools count, that no lock is held too long, and that whoever sleeps is woken.
//!
//! Few functions own a pool, since a proof is long where one may be let go: the others borrow it.
#![tactic(auto)]

#[cfg(test)]
mod tests;
