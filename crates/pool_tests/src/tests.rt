//! The tests, by what they are of.

mod events;
mod flights;
mod lanes;
mod pools;
mod values;
mod waits;
