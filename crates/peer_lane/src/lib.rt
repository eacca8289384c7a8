//! Lanes: a ring of tickets from the reader of a connection to its writer.
//!
//! It stands on the tickets of `peer_wish`, the ring of `rtrb` and the waits of `peer_wait`. It promises that tickets come
//! out as they went in, each once and in order, that a lane has 64 places and a `put` fails only where none is known to be
//! free, and that what was taken and what is left are what was put. After `lane` nothing takes memory.
#![tactic(auto)]

mod lane_in;
mod lane_out;
mod pair;
mod signal;

pub use lane_in::LaneIn;
pub use lane_out::LaneOut;
pub use pair::{beside, lane};
pub use signal::Signal;
