//! What the caches of groups may have: what a file says of a group, and else what the options say.
ghost use Rattle.std.specs.List.{AllZip};
ghost use Rattle.std.specs.Prelude.{IfOk};
ghost use Rattle.peer_fill.specs.Plans.{IsPlanFor};

use crate::config::{ConfigFile, group_in};
use peer_fill::CachePlan;
use peer_flags::Options;
use peer_stats::{CacheLimits, ServedGroup};
use std::alloc::{AllocError, Global};

/// What the cache of the group of a name may have.
pub fn limits_of(options: &Options<'_>, file: Option<ConfigFile<'_>>, name: &[u8]) -> CacheLimits {
    let (bytes, entries) = match group_in(file, name) {
        Some(group) => (group.cache(), group.cache_keys()),
        None => (None, None),
    };
    CacheLimits {
        bytes: bytes.unwrap_or(options.cache_bytes),
        entries: entries.or(options.cache_keys),
    }
}

/// How the caches of these groups are planned, in the order of their numbers.
pub fn plans_of(alloc: Global, groups: &[ServedGroup]) -> Result<Vec<CachePlan>, AllocError>
    ensures { IfOk result (λ plans. AllZip (λ group plan. IsPlanFor group.limits.bytes group.limits.entries plan) groups.now plans.items) }
{
    let mut plans = Vec::new(alloc);
    for group in groups {
        let limits = group.limits;
        plans.push(CachePlan::sharded(limits.bytes, limits.entries))?;
    }
    Ok(plans)
}
