//! The source over origins.
ghost use Rattle.std.specs.Arc.{arc_value};
ghost use Rattle.std.specs.Prelude.{◌≡◌, ◌≢◌, ◌+◌, ◌<◌, ◌≤◌, ℕ, length, drop, option_map, slice_get, slice_index_or};
ghost use Rattle.peer_origin.specs.Fetched.{AnswersFrom, answer_within, answered_at};
ghost use Rattle.peer_origin.specs.Origins.{IsOriginAnswer, number_from, origin_limited, origin_numbered};
ghost use Rattle.peer_origin.specs.Settings.{IsSetTo, SetsGroup};
ghost use Rattle.peer_origin.specs.declared.origin.Origin.{Origin};

use crate::endpoint::Endpoint;
use crate::fault::{FetchFault, get_fault};
use crate::group_settings::GroupSettings;
use crate::origin::Origin;
use crate::wires::Wires;
use peer_source::{GetResult, GroupId, Source};
use peer_view::AllocSink;
use std::alloc::{AllocError, Global};
use std::marker::PhantomData;
use std::sync::Arc;

/// A source of what origins answer on connections of a network, one for each group. It names the groups, and says what their
/// values may be; threads of their own fetch these (`peer_fetch`).
#[derive(Drop)]
pub struct OriginSource<'a, H> {
    origins: Vec<Origin>,
    of: PhantomData<&'a H>,
}

impl<'a, H> OriginSource<'a, H> {
    ghost use Rattle.std.specs.Prelude.{◌≡◌, IfOk, map};
    ghost use Rattle.peer_origin.specs.Endpoints.{reached_at};

    /// A source over these origins, in the order of their groups' numbers.
    pub fn new(origins: Vec<Origin>) -> OriginSource<'a, H>
        ensures { result.origins ≡ origins }
    {
        OriginSource {
            origins,
            of: PhantomData,
        }
    }

    /// The endpoints of its origins, in the order of their groups' numbers.
    pub fn endpoints(&self, alloc: Global) -> Result<Vec<Endpoint>, AllocError>
        ensures { IfOk result (λ endpoints. map reached_at endpoints.items ≡ map (λ o. reached_at o.endpoint) self.now.origins.items) }
    {
        let mut endpoints = Vec::new(alloc);
        for origin in &self.origins {
            endpoints.push(origin.endpoint.copy(alloc)?)?;
        }
        Ok(endpoints)
    }
}

// The number of the origin with a name.
fn find(origins: &[Origin], name: &[u8]) -> Option<GroupId>
    ensures { option_map (λ g. g.number) result ≡ number_from 0 origins.now name.now }
{
    let mut number = 0;
    for origin in origins {
        if origin.name.as_slice() == name {
            return Some(GroupId { number });
        }
        number += 1;
    }
    None
}

// Has these settings be those of the group of the origin at this index.
fn set_at(origins: &mut [Origin], index: usize, own: Arc<GroupSettings, Global>)
    requires { index < length origins.old }
    ensures own { (d : Origin) → IsSetTo (arc_value own) (slice_index_or origins.old index d) (slice_index_or origins.new index d) }
    ensures others { (k : ℕ) (d : Origin) → k ≢ index → slice_index_or origins.new k d ≡ slice_index_or origins.old k d }
{
    origins[index].set(own);
}

/// Has these settings be those of the group with this name. Whether there is such a group.
pub fn set_group(origins: &mut [Origin], name: &[u8], own: Arc<GroupSettings, Global>) -> bool
    ensures { SetsGroup name.now (arc_value own) origins.old origins.new }
{
    match find(origins, name) {
        Some(group) => {
            set_at(origins, group.number, own);
            true
        }
        None => false,
    }
}

impl<'a, H: Wires + Sync> Source for OriginSource<'a, H> {
    ghost answers = { λ s. AnswersFrom H.carried s.origins.items };

    ghost allowed = { λ g k a. IsOriginAnswer a };

    ghost count = { λ s. length s.origins.items };

    ghost number_of = { λ s name. number_from 0 s.origins.items name };

    fn group_count(&self) -> usize {
        self.origins.len()
    }

    fn group(&self, name: &[u8]) -> Option<GroupId> {
        find(&self.origins, name)
    }

    /// Refuses, since nothing is asked: what an origin answers is fetched by threads, which do not call this (`peer_fetch`). Only
    /// a server without them would, and a pool for a fill of another group or key than was asked for (`Pool::refill`), of which
    /// none is known.
    fn get(&self, alloc: Global, _group: GroupId, _key: &[u8], _sink: &mut AllocSink) -> GetResult {
        Err(get_fault(alloc, FetchFault::Unreached))
    }

    ghost within = { λ s g k a h. answer_within H.carried (slice_get s.origins.items g) k a h };

    ghost limited = { λ g k a h. origin_limited a h };

    ghost answered = { λ s g k. answered_at H.carried (slice_get s.origins.items g) k };

    ghost numbered = { λ s name i e. origin_numbered s.origins.items name i e };
}
