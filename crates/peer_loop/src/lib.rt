//! A peer server for thousands of clients: one thread accepts them, a few serve them in event loops, and others fill.
//!
//! It stands on the event loops of `peer_clients`, on the threads that fetch of `peer_fetch`, and on the pool of `peer_fill`.
//! It promises that the report which a server gives adds up, and for which numbers of threads that fill, loops and groups it
//! refuses to open.
#![tactic(auto)]

mod acceptor;
mod dealing;
mod filler;
mod fillers;
mod listening;
mod opening;
mod server;
mod server_threads;
mod settings;
mod starting;
mod stop;
mod threads;
mod work;

pub use fillers::Fillers;
pub use server::{ServerFault, serve_fetching, serve_loops};
pub use settings::Settings;
pub use stop::Stop;
