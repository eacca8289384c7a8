//! How the caches of all groups of a pool are planned.
ghost use Rattle.std.specs.Prelude.{◌≡◌, ◌≤◌};
ghost use Rattle.peer_fill.specs.Plans.{HaveShards, group_plan};

use crate::plan::CachePlan;
use peer_source::MAX_GROUPS;
use std::hash::RandomState;

/// How the caches of a pool are made.
#[derive(Clone, Copy)]
pub struct Caching<'a> {
    /// The caches of each group that has no plan of its own.
    pub plan: CachePlan,
    /// The plans of the first groups, in the order of their numbers. Each group after them has the plan above.
    pub own: &'a [CachePlan],
    /// For the maps of the keys, which peers choose.
    pub seed: RandomState,
}

impl<'a> Caching<'a> {
    /// The plan of the group with this number.
    pub(crate) fn plan_of(&self, number: usize) -> CachePlan
        ensures { result ≡ group_plan self.now.plan self.now.own.now number }
    {
        match self.own.get(number) {
            Some(plan) => *plan,
            None => self.plan,
        }
    }

    /// The place of the last shard of each of so many groups.
    pub(crate) fn last_places(&self, groups: usize) -> [u8; MAX_GROUPS]
        requires { groups ≤ 64 }
        ensures { HaveShards self.now.plan self.now.own.now groups result }
    {
        let mut places = [0; MAX_GROUPS];
        for number in 0..groups {
            places[number] = (self.plan_of(number).shards() - 1) as u8;
        }
        places
    }
}
