//! A source whose answers its type names.
//!
//! It stands on the sources of `peer_source`. It promises that what such a type allows is what this very source may answer.
#![tactic(auto)]

mod known;

pub use known::{Known, Relation};
