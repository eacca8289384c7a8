//! What the page tells of the server as it was begun.

use crate::config::ConfigFile;
use crate::group_caches::limits_of;
use peer_fetch::FetchPlan;
use peer_flags::Options;
use peer_groups::{FrontSource, names_of};
use peer_origin::{Endpoint, Wires};
use peer_stats::{Build, ServedGroup, ServedService, ServerBounds, ServerFacts};
use std::alloc::Global;

// The version of the program, as `--version` prints it.
const VERSION: &[u8] = b"0.2.0";

// The logic of the toolchain that the program is proved with (`rt version`).
const TOOLCHAIN: &[u8] = b"dac8208d650f15bf";

/// The groups of the source that these words ask for, in the order of their numbers, and what their caches may have. None where
/// memory is refused.
pub fn served_groups<H: Wires + Sync>(
    alloc: Global,
    source: &FrontSource<'_, H>,
    words: &[&str],
    options: &Options<'_>,
    file: Option<ConfigFile<'_>>,
) -> Option<Vec<ServedGroup>> {
    let mut groups = Vec::new(alloc);
    for name in names_of(alloc, source, &source.first().first().source, words)? {
        let limits = limits_of(options, file, name.as_slice());
        groups.push(ServedGroup { name, limits }).ok()?;
    }
    Some(groups)
}

// The services of these endpoints: each host under the number of its first endpoint. None where memory is refused.
fn services_at(alloc: Global, endpoints: &[Endpoint]) -> Option<Vec<ServedService>> {
    let mut services = Vec::new(alloc);
    for number in 0..endpoints.len() {
        let host = &endpoints[number].host;
        let mut before = endpoints.iter().take(number);
        if !before.any(|other| other.host == *host) {
            let name = host.as_slice().to_vec(alloc).ok()?;
            services.push(ServedService { name, number }).ok()?;
        }
    }
    Some(services)
}

/// The services that this plan asks, none without one: each host under the number of its first endpoint. None where memory is refused.
pub fn served_services(alloc: Global, plan: &Option<FetchPlan<'_>>) -> Option<Vec<ServedService>> {
    match plan {
        Some(plan) => services_at(alloc, plan.endpoints.each),
        None => Some(Vec::new(alloc)),
    }
}

/// What a server of these groups and services is, as the options say.
pub fn facts_of<'a>(
    options: &Options<'_>,
    groups: &'a [ServedGroup],
    services: &'a [ServedService],
) -> ServerFacts<'a> {
    let fetchers = if services.is_empty() {
        0
    } else {
        options.fetchers
    };
    ServerFacts {
        groups,
        services,
        loops: options.loops,
        bounds: ServerBounds {
            connections: options.connections as u64,
            under_way: fetchers.saturating_mul(options.under_way) as u64,
            untaken_bytes: options.memory as u64,
        },
        build: Build {
            version: VERSION,
            toolchain: TOOLCHAIN,
        },
    }
}
