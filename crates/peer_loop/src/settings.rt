//! How a server serves.

use crate::fillers::Fillers;
use crate::stop::Stop;
use peer_access::RecordRings;
use peer_fetch::FetchPlan;
use peer_fill::Caching;
use peer_runtime::Limits;
use peer_stats::Counters;

/// How a server serves.
#[derive(Clone, Copy)]
pub struct Settings<'a> {
    /// Which threads fill what is asked for.
    pub fillers: Fillers,
    /// How many threads serve connections, from 1 to 16.
    pub loops: usize,
    /// How many connections are open at most. Further clients wait in the backlog.
    pub connections: usize,
    /// How many bytes of replies and values all clients together may hold, those not counted that hold 64 KiB at most. Where
    /// it is more, a client's next requests wait until it holds nothing.
    pub memory: usize,
    /// How many connections are accepted before the server ends by itself, none where it does not.
    pub accepts: Option<u64>,
    /// How the caches of its groups are made.
    pub caching: Caching<'a>,
    /// How long clients are waited for.
    pub limits: Limits,
    /// Where its threads publish what they count.
    pub counters: &'a Counters,
    /// Where its loops find the rings of an access log, if there is one.
    pub records: Option<&'a RecordRings>,
    /// By what it is told to end.
    pub stop: &'a Stop,
}

/// How a server serves, and what its threads fetch, where they do.
#[derive(Clone, Copy)]
pub struct Orders<'a> {
    pub settings: &'a Settings<'a>,
    pub plan: Option<FetchPlan<'a>>,
}

impl<'a> Orders<'a> {
    /// How many threads fetch, and by which plan. None where threads call the source.
    pub fn fetchers(&self) -> Option<(usize, FetchPlan<'a>)> {
        match (self.plan, self.settings.fillers) {
            (Some(plan), Fillers::Threads(count)) => Some((count, plan)),
            _ => None,
        }
    }
}
