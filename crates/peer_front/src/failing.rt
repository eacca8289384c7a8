//! Failures of the services of groups, as lines: which group, which service, how many, and the last key; and when a service is
//! well again.

use crate::grown::Grown;
use crate::log::Log;
use peer_fetch::FetchPlan;
use peer_log::{Field, Level, Said};
use peer_source::MAX_GROUPS;
use peer_stats::{Counters, FailureCounts, KeyStart, LastFailure, OriginFailure, ServerFacts};
use std::sync::Wait;
use std::time::Clock;

// The kinds of failures that are trouble. A key that a service does not have is none.
const KINDS: [OriginFailure; 7] = [
    OriginFailure::Status,
    OriginFailure::Unreached,
    OriginFailure::Late,
    OriginFailure::Lost,
    OriginFailure::Malformed,
    OriginFailure::TooLong,
    OriginFailure::Memory,
];

/// What is looked at.
#[derive(Clone, Copy)]
pub struct Watched<'a> {
    pub log: &'a Log,
    pub counters: &'a Counters,
    pub facts: ServerFacts<'a>,
    /// What threads fetch, where they do.
    pub plan: Option<FetchPlan<'a>>,
}

/// What the last look found of failures of services, by the numbers of groups.
#[derive(Clone, Copy)]
pub struct Failing {
    before: [FailureCounts; MAX_GROUPS],
    // The failures since the service was well.
    since: [u64; MAX_GROUPS],
    // The group that is looked at first: the next one each time, since not all may have a line in one second.
    first: usize,
}

/// A group and its service, as lines name them.
#[derive(Clone, Copy)]
pub struct Named<'a> {
    pub group: &'a [u8],
    pub service: &'a [u8],
}

/// The group with this number, if it has a service.
pub fn name_of<'a>(watched: &Watched<'a>, number: usize) -> Option<Named<'a>> {
    let plan = watched.plan?;
    let group = watched.facts.groups.get(number)?;
    let endpoint = plan
        .endpoints
        .each
        .get(number.checked_sub(plan.endpoints.first)?)?;
    Some(Named {
        group: group.name.as_slice(),
        service: endpoint.host.as_slice(),
    })
}

// What is said of a kind of failure whose last status is not told.
fn what_of(failure: OriginFailure) -> &'static [u8] {
    match failure {
        OriginFailure::NoSuchKey => b"origin has no such key",
        OriginFailure::Status => b"origin answered another status than 200 and 404",
        OriginFailure::Unreached => b"origin not reached",
        OriginFailure::Late => b"origin too late",
        OriginFailure::Lost => b"origin closed the connection",
        OriginFailure::Malformed => b"origin sent a bad reply",
        OriginFailure::TooLong => b"origin sent a value over the limit",
        OriginFailure::Memory => b"memory refused for a value",
    }
}

// The fields of a line on failures.
fn fields_of<'a>(named: Named<'a>, grown: Grown, key: &'a [u8]) -> [Field<'a>; 5] {
    [
        Field {
            name: b"group",
            said: Said::Name(named.group),
        },
        Field {
            name: b"service",
            said: Said::Word(named.service),
        },
        Field {
            name: b"more",
            said: Said::Number(grown.more),
        },
        Field {
            name: b"total",
            said: Said::Number(grown.total),
        },
        Field {
            name: b"last_key",
            said: Said::Name(key),
        },
    ]
}

// The fields of a line on a service that is well again.
fn well_fields<'a>(named: Named<'a>, failures: u64) -> [Field<'a>; 3] {
    [
        Field {
            name: b"group",
            said: Said::Name(named.group),
        },
        Field {
            name: b"service",
            said: Said::Word(named.service),
        },
        Field {
            name: b"failures",
            said: Said::Number(failures),
        },
    ]
}

// The last failure of this kind of the service of a group.
fn last_of<H: Wait>(
    rt: &H,
    counters: &Counters,
    number: usize,
    failure: OriginFailure,
) -> LastFailure {
    match counters.failures().read_last(rt, number, failure) {
        Some(last) => last,
        None => LastFailure {
            status: None,
            key: KeyStart::of(b""),
        },
    }
}

// Says that a service failed more often, and how it did last.
fn say_failed<H: AllocGlobal + Eprint + Clock>(
    rt: &H,
    log: &Log,
    failure: OriginFailure,
    last: &LastFailure,
    named: Named<'_>,
    grown: Grown,
) {
    let fields = fields_of(named, grown, last.key.as_slice());
    if let Some(status) = last.status {
        if let Ok(what) = format!(in rt.alloc(); "origin answered {status}") {
            log.say(rt, Level::Warn, what.as_str().as_bytes(), &fields);
            return;
        }
    }
    log.say(rt, Level::Warn, what_of(failure), &fields);
}

// Says how often the service of a group failed between two looks, by why. How often that was.
fn say_kinds<H: AllocGlobal + Eprint + Wait + Clock>(
    rt: &H,
    watched: &Watched<'_>,
    number: usize,
    named: Named<'_>,
    before: FailureCounts,
    now: FailureCounts,
) -> u64 {
    let mut failures: u64 = 0;
    for failure in KINDS {
        let grown = Grown::between(before.of(failure), now.of(failure));
        if grown.is_more() {
            failures = failures.saturating_add(grown.more);
            let last = last_of(rt, watched.counters, number, failure);
            say_failed(rt, watched.log, failure, &last, named, grown);
        }
    }
    failures
}

impl Failing {
    /// No failure was seen.
    pub const NONE: Failing = Failing {
        before: [FailureCounts::NONE; MAX_GROUPS],
        since: [0; MAX_GROUPS],
        first: 0,
    };

    // Looks at the group with this number.
    fn look_at<H: AllocGlobal + Eprint + Wait + Clock>(
        &mut self,
        rt: &H,
        watched: &Watched<'_>,
        number: usize,
    ) {
        let Some(named) = name_of(watched, number) else {
            return;
        };
        let place = number % MAX_GROUPS;
        let now = watched.counters.failures().read_group(number);
        let more = say_kinds(rt, watched, number, named, self.before[place], now);
        self.before[place] = now;
        let since = self.since[place].saturating_add(more);
        self.since[place] = since;
        if more == 0 && since > 0 && !watched.counters.failures().is_failing(number) {
            let fields = well_fields(named, since);
            let log = watched.log;
            if log.say(rt, Level::Info, b"origin well again", &fields) {
                self.since[place] = 0;
            }
        }
    }

    /// Says how often services failed since the last look, and which are well again.
    pub fn look<H: AllocGlobal + Eprint + Wait + Clock>(&mut self, rt: &H, watched: &Watched<'_>) {
        let groups = watched.facts.groups.len();
        for step in 0..groups {
            let number = self.first.wrapping_add(step) % groups;
            self.look_at(rt, watched, number);
        }
        self.first = self.first.wrapping_add(1);
    }
}
