//! What threads of their own fetch: the groups of services.
ghost use Rattle.std.specs.Prelude.{◌≡◌, ◌+◌, IfSome, length, map};
ghost use Rattle.peer_fetch.specs.Threads.{AllowsOrigins};
ghost use Rattle.peer_origin.specs.Endpoints.{reached_at};
ghost use Rattle.peer_groups.specs.Besides.{AnswersOrigins};

use crate::beside::Beside;
use peer_fetch::{FetchPlan, FetchThreadSettings};
use peer_origin::{Endpoint, FetchSettings, OriginSource, Wires};
use peer_source::Source;
use peer_stats::Counters;
use peer_value::Endpoints;
use std::alloc::Global;

/// The groups of services: from which number on they are, where each is asked for, and among how many groups they stand.
#[derive(Drop)]
pub struct Fetched {
    first: usize,
    each: Vec<Endpoint>,
    groups: usize,
}

impl Fetched {
    /// How they are fetched, so many values at one moment by each thread. None is told as slow.
    pub fn plan<'a>(
        &'a self,
        fetch: FetchSettings,
        under_way: usize,
        counters: &'a Counters,
    ) -> FetchPlan<'a>
        ensures first { result.endpoints.first ≡ self.now.first }
        ensures each { result.endpoints.each.now ≡ self.now.each.items }
        ensures groups { result.endpoints.groups ≡ self.now.groups }
        ensures fetch { result.settings.fetch ≡ fetch }
        ensures under_way { result.settings.under_way ≡ under_way }
    {
        FetchPlan {
            endpoints: Endpoints {
                first: self.first,
                each: self.each.as_slice(),
                groups: self.groups,
            },
            settings: FetchThreadSettings::new(fetch, under_way),
            failures: counters.failures(),
            times: counters.fetch_times(),
            services: counters.services(),
            slow: None,
        }
    }
}

/// The groups of services in a source in which they stand behind those of a first. None where memory is refused.
pub fn fetched_of<'a, A: Source + Send + Sync, B: Source + Send + Sync, H: Wires + Sync>(
    alloc: Global,
    source: &Beside<Beside<A, OriginSource<'a, H>>, B>,
) -> Option<Fetched>
    ensures first { IfSome result (λ fetched. fetched.first ≡ A.count source.now.first.first) }
    ensures each { IfSome result (λ fetched. map reached_at fetched.each.items
        ≡ map (λ o. reached_at o.endpoint) source.now.first.second.origins.items) }
    ensures groups { IfSome result (λ fetched. fetched.groups
        ≡ A.count source.now.first.first + length source.now.first.second.origins.items + B.count source.now.second) }
    ensures allows { IfSome result (λ fetched. AllowsOrigins H.carried (AnswersOrigins H.carried (A.count source.now.first.first)
        source.now.first.second.origins.items (A.answers source.now.first.first) (B.answers source.now.second))
        fetched.first fetched.each.items) }
{
    let services = source.first();
    let first = services.first().group_count();
    let Ok(each) = services.second().endpoints(alloc) else {
        return None;
    };
    let groups = source.group_count();
    Some(Fetched {
        first,
        each,
        groups,
    })
}
