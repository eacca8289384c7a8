//! What a running server counts, and the page that tells it.
//!
//! `Counters` has a slot for each thread of a server, which publishes there what it has counted; whoever reads adds the
//! slots up. `StatsServer` serves the sums over HTTP as Prometheus reads them. It stands on the toolchain's `http_server`
//! and `mio`. It promises the text of the page, to the byte. What a slot holds at a moment no contract can say.
#![tactic(auto)]

mod answer;
mod client;
mod closing;
mod counters;
mod counts;
mod end;
mod facts;
mod failure;
mod family;
mod group_number;
mod groups;
mod label;
mod last;
mod latencies;
mod numbers;
mod page;
mod process;
mod server;
mod service;
mod service_counts;
mod service_slots;
mod services;
mod slots;
mod state;
mod still;
mod time_slots;
mod times;

pub use closing::Closing;
pub use counters::Counters;
pub use counts::{
    AcceptCounts, AskCounts, CacheCounts, CacheLimits, CloseCounts, Counts, FailureCounts,
    FillerCounts, GroupCounts, LoopCounts, ReplyCounts, TrafficCounts,
};
pub use end::StatsEnd;
pub use facts::{ServedGroup, ServedService, ServerFacts};
pub use failure::OriginFailure;
pub use last::{KeyStart, LastFailure};
pub use numbers::{Build, Numbers, ProcessCounts, ServerBounds};
pub use page::metrics_page;
pub use server::{StatsServer, open_stats};
pub use service_counts::{ConnectCounts, ConnectEnd, ServiceCounts, ServiceHeld, StatusCounts};
pub use service_slots::ServiceSlots;
pub use slots::{AcceptSlot, CacheSlot, FailureSlots, FillerSlot, LoopSlot};
pub use state::{ServerState, Stage};
pub use still::{ASLEEP, Looks};
pub use time_slots::{FetchTimes, GroupTimes};
pub use times::{LoopTurns, MAX_PLACES, TimeCounts};
