//! What tests of several crates have in common: the seed of their caches, the source for demonstrations with something
//! done before each of its calls, steps by which threads wait for one another, and the pools, seats and workers that
//! they use.
//!
//! It stands on the pools of `peer_fill` and the sources of `peer_source`. No crate of the product uses it.
#![tactic(auto)]

mod asks;
mod hooked;
mod pools;
mod reports;
mod seats;
mod seeds;
mod steps;
mod workers;

pub use asks::{ask_for, ask_in};
pub use hooked::{Hook, Hooked, Refusing};
pub use pools::{close_pool, open_pool, open_pool_with};
pub use reports::all_called;
pub use seats::push_seat;
pub use seeds::{seed, seed_of};
pub use steps::Step;
pub use workers::{beside_worker, do_jobs, work_all};
