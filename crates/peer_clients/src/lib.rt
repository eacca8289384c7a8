//! The clients of one thread: an event loop that serves thousands of them.
//!
//! It stands on the connections of `peer_exchange`, which are states without input or output, on the pool of `peer_fill`, on
//! `peer_site`, which tells when a client is given up and has what a server's threads share, and on the readiness of
//! `mio`. It promises that the seats which a loop is handed come back as seats of the same pool, with
//! their parts. A connection is served by calls of `Exchange` alone, whose law says what is sent: that, what a socket carries,
//! and how long a call waits, no contract can say.
#![tactic(auto)]

mod chain;
mod client;
mod client_list;
mod client_state;
mod clients;
mod event_loop;
mod facts;
mod filling;
mod limits;
mod loop_seats;
mod running;
mod seat;
mod skip;
mod turns;
mod wait_lists;
mod work;

pub use loop_seats::LoopSeats;
pub use running::run_loop;
pub use work::{LoopParts, LoopWork};
