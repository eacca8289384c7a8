//! Connections as states, driven in one thread for tests and measurements: bytes come and go in pieces, and the jobs of
//! the pool are filled between the calls.
//!
//! It stands on the exchanges of `peer_exchange`, the pools of `peer_fill`, the source for demonstrations of `peer_source`,
//! and the texts and the model of `stream_model`. No crate of the product uses it, and it promises nothing.
#![tactic(auto)]

mod driven;
mod generated;

pub use driven::{Driven, Steps};
pub use generated::{Compared, compare};
