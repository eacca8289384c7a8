//! Sources of values by group and key; fills: what a source answered for a group and a key; and the main cache of a
//! group, which keeps the values used last.
//!
//! It stands on the views and sinks of `peer_view`, and on the toolchain's `lru`. It promises that an answer is one that the
//! source gives, that a fill's answer is one that the type of its source allows for its group and key, and that a cache
//! gives only such fills, within its limit.
#![tactic(auto)]

mod cache;
mod demo;
mod entries;
mod fill;
mod functional;
mod group;
mod lent_key;
mod lost;
mod names;
mod source;

pub use cache::{MAX_ENTRIES, MainCache};
pub use demo::DemoSource;
pub use entries::Evicted;
pub use fill::{Fill, Outcome, too_long_text};
pub use functional::FunctionalSource;
pub use group::{GroupId, MAX_GROUPS};
pub use lost::Lost;
pub use names::Names;
pub use source::{GetFault, GetResult, Shared, Source};
