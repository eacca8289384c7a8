//! The pool of fills: connections ask, and workers call the source (`Group.load` of `groupcache.go`, `singleflight.go`).
//!
//! It stands on the flights of `peer_flight`, the sources, fills and caches of `peer_source`, the waits of `peer_wait`
//! and the queue of `crossbeam_queue` whose order is proved (`ruled`). It promises that a claim is of the group and the
//! key that were asked for, that one which is ready shows a value that was found for them, that each ask is counted once
//! by what it gave, that jobs are first in, first out, and that a pool is closed exactly where all its seats are handed
//! in, with a report that adds up: what was led is what was called for, was kept by then, or is left. Threads that are
//! handed seats give them back with their parts.
#![tactic(auto)]

mod ask;
mod bringing;
mod cache_counts;
mod caches;
mod caching;
mod close;
mod closed;
mod counts;
mod deal;
mod gate;
mod group_asks;
mod handing;
mod jobs;
mod keeping;
mod landing;
mod lists;
mod making;
mod open;
mod parts;
mod plan;
mod pool;
mod pushing;
mod seat;
mod seats;
mod shards;
mod signals;
mod table;
mod taking;
mod totals;
mod waiting;
mod work;

pub use bringing::TakenJob;
pub use cache_counts::CacheCounts;
pub use caching::Caching;
pub use close::{CloseFault, Report};
pub use closed::Closed;
pub use counts::{AskCounts, FillCounts};
pub use gate::{Gate, NoGate};
pub use group_asks::{AsksOfGroup, GroupAsks};
pub use handing::pop_seat;
pub use jobs::{Job, PassLog};
pub use keeping::{Keeps, join_seats};
pub use lists::Seats;
pub use open::{OpenFault, Opened};
pub use plan::{Bounds, CachePlan, ENTRY_BYTES};
pub use pool::Pool;
pub use seat::{MAX_SEATS, Seat};
pub use seats::{ConnSeat, FillSeat};
