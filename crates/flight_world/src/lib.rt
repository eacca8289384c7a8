//! A pool over plain data, one event at a time: what `peer_flight::laws` speaks of, as code.
//!
//! It stands on the flights and the table of `peer_flight` and the bounds of `peer_wish`. It promises that each call of a `World` is one event of that
//! law where the world allows it, and else changes nothing and answers `false`; so events lead to every world, and each
//! fact of the law holds of it. It is evidence that the law speaks of something, and serves to try schedules without
//! threads; a running pool (`peer_fill`) shares a table and lanes between threads.
#![tactic(auto)]

mod connection;
mod entry;
mod ticket;
mod wish;
mod worker;
mod world;

pub use connection::Connection;
pub use entry::FlightEntry;
pub use ticket::{Hand, Ticket, Written};
pub use wish::Wish;
pub use worker::{Hands, Worker};
pub use world::World;
