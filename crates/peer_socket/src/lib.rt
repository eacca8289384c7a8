//! The peer server on a socket: workers fill, and each seat serves one connection after the other in a thread of its own.
//!
//! It stands on the pool of `peer_fill`, the connections of `peer_conn` and the sockets of std. It promises that the
//! report which a server gives adds up, and for which numbers of workers, connections and groups it refuses to open. What
//! a socket carried, and how long a call waited, no contract can say.
#![tactic(auto)]

mod acceptor;
mod client;
mod client_reader;
mod client_writer;
mod closing;
mod occupancy;
mod rounds;
mod seat_threads;
mod server;
mod start;
mod stream;
mod threads;

pub use server::{ServerFault, Settings, peer_server, serve_within};
