//! Values from HTTP origins, hundreds under way in one thread: it takes jobs of a pool, sends their requests on
//! connections that never wait, and fills their flights as the replies come.
//!
//! It stands on the jobs of `peer_fill`, the values under way of `peer_value`, and the readiness of sockets of `mio`. It promises
//! that a turn leaves a value on its connection or gives it back with its own job, that a flight is filled with what its group's
//! source may answer, and that a thread hands back its seat with its parts, as a worker does. For a group without an endpoint it
//! calls the source.
#![tactic(auto)]

mod books;
mod connections;
mod fetcher;
mod idle;
mod jobs;
mod link;
mod noted;
mod opening;
mod room;
mod settings;
mod slow;
mod thread;
mod transfer;

pub use settings::{FetchPlan, FetchThreadSettings};
pub use slow::{SlowList, SlowValue, SlowValues};
pub use thread::{FetchParts, FetchThread};
