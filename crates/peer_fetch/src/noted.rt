//! What became of a value is noted: of a failure of a service which key it was, and what was answered; and how long it took.

use crate::settings::FetchPlan;
use crate::slow::SlowValue;
use peer_fill::TakenJob;
use peer_origin::FetchFault;
use peer_source::Source;
use peer_stats::{FailureSlots, FetchTimes, KeyStart, LastFailure, OriginFailure};
use peer_value::{Spans, Times};
use std::sync::Wait;
use std::time::Duration;

// The status that a service answered, if it answered one.
fn status_of(fault: FetchFault) -> Option<u16> {
    match fault {
        FetchFault::Status(status) => Some(status),
        _ => None,
    }
}

/// Notes that the value of a job was fetched, or why it was not. A service that has no such key gave a whole reply.
pub fn note_done<S: Source, H: Wait>(
    rt: &H,
    failures: &FailureSlots,
    job: &TakenJob<S>,
    fault: Option<FetchFault>,
) {
    let group = job.group().number;
    let Some(fault) = fault else {
        failures.note_well(group);
        return;
    };
    match fault.kind() {
        OriginFailure::NoSuchKey => {
            failures.note_well(group);
            failures.count(group, OriginFailure::NoSuchKey);
        }
        kind => {
            let last = LastFailure {
                status: status_of(fault),
                key: KeyStart::of(job.key()),
            };
            failures.note(rt, group, kind, last);
        }
    }
}

// Counts how long the value of a job waited until it was under way, or was given up, and how long it was under way.
fn count_times(counts: &FetchTimes, group: usize, spans: Spans, is_begun: bool) {
    counts.count_queued(spans.queue);
    if is_begun {
        counts.count_under_way(group, spans.whole.saturating_sub(spans.queue));
    }
}

/// Counts how long the value of a job took that ends now, and notes it if that is to be told.
pub fn note_times<S: Source, H: Wait>(
    rt: &H,
    plan: &FetchPlan<'_>,
    job: &TakenJob<S>,
    times: Times,
    now: Duration,
) {
    let group = job.group().number;
    let spans = times.spans(now);
    count_times(plan.times, group, spans, times.begun.is_some());
    if let Some(slow) = plan.slow {
        if slow.is_slow(spans) {
            let key = KeyStart::of(job.key());
            slow.note(rt, SlowValue { group, key, spans });
        }
    }
}
