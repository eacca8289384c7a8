//! Single flight: one fill for all that want the same group and key at the same time (groupcache, `singleflight`).
//!
//! It stands on the views of `peer_view`, the fills of `peer_source` and the set-once cells of `once_cell`. It promises
//! that a place has one open flight at most, that what was seen of a flight is seen again, and what holds however the
//! steps of readers, workers and writers fall (`laws`).
#![tactic(auto)]

mod claim;
mod flight;
pub mod laws;
mod place;
mod table;

pub use claim::Claim;
pub use flight::{FillRight, Flight, Note, Put};
pub use place::Place;
pub use table::{Ask, AskFault, Table};
