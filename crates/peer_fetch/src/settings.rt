//! What can be set of a fetch thread, and what it fetches.
ghost use Rattle.std.specs.Prelude.{◌≡◌};

use crate::slow::SlowValues;
use peer_origin::FetchSettings;
use peer_stats::{FailureSlots, FetchTimes, ServiceSlots};
use peer_value::Endpoints;
use std::time::Duration;

/// What can be set of a fetch thread.
#[derive(Clone, Copy, Debug, PartialEq, Eq)]
pub struct FetchThreadSettings {
    /// The times of a value and its connections.
    pub fetch: FetchSettings,
    /// How many values may be under way, each on a connection of its own.
    pub under_way: usize,
    /// The pause behind a call of the system that failed, so that the thread does not spin.
    pub pause: Duration,
}

impl FetchThreadSettings {
    /// These times, so many values under way, and the usual pause.
    pub fn new(fetch: FetchSettings, under_way: usize) -> FetchThreadSettings
        ensures fetch { result.fetch ≡ fetch }
        ensures under_way { result.under_way ≡ under_way }
    {
        FetchThreadSettings {
            fetch,
            under_way,
            pause: Duration::from_millis(10),
        }
    }
}

/// What a fetch thread is to fetch, and how.
#[derive(Clone, Copy)]
pub struct FetchPlan<'a> {
    /// The endpoints of the groups that it fetches for. The source is called for all others.
    pub endpoints: Endpoints<'a>,
    pub settings: FetchThreadSettings,
    /// Where is noted why an origin gave no value.
    pub failures: &'a FailureSlots,
    /// Where is counted how long values took.
    pub times: &'a FetchTimes,
    /// Where is counted of services.
    pub services: &'a ServiceSlots,
    /// Where values are noted that took long, if they are to be told.
    pub slow: Option<&'a SlowValues>,
}
