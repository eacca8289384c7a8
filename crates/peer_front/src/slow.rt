//! Values of services that took longer than `--slow`, as lines.

use crate::failing::{Named, Watched, name_of};
use peer_fetch::{SlowList, SlowValue, SlowValues};
use peer_flags::Options;
use peer_log::{Field, Level, Said};
use std::alloc::Global;
use std::sync::Wait;
use std::time::{Clock, Duration};

/// Where slow values are noted, if the options say which are slow.
pub fn slow_values_of(alloc: Global, options: &Options<'_>) -> Option<SlowValues> {
    match options.slow {
        Some(least) => Some(SlowValues::new(alloc, least)),
        None => None,
    }
}

// A field that says a time in whole milliseconds, 2^64 - 1 at most.
fn millis<'a>(name: &'a [u8], time: Duration) -> Field<'a> {
    let whole = time.as_secs().saturating_mul(1000);
    Field {
        name,
        said: Said::Number(whole.saturating_add(u64::from(time.subsec_millis()))),
    }
}

// The fields of a line on a value.
fn fields_of<'a>(named: Named<'a>, value: &'a SlowValue) -> [Field<'a>; 7] {
    [
        Field {
            name: b"group",
            said: Said::Name(named.group),
        },
        Field {
            name: b"service",
            said: Said::Word(named.service),
        },
        Field {
            name: b"key",
            said: Said::Name(value.key.as_slice()),
        },
        millis(b"queue_ms", value.spans.queue),
        millis(b"connect_ms", value.spans.connect),
        millis(b"first_byte_ms", value.spans.first_byte),
        millis(b"whole_ms", value.spans.whole),
    ]
}

// Where the slow values of services are noted, if they are.
fn slow_of<'a>(watched: &Watched<'a>) -> Option<&'a SlowValues> {
    watched.plan?.slow
}

// Says how long a value took.
fn say_value<H: AllocGlobal + Eprint + Clock>(rt: &H, watched: &Watched<'_>, value: &SlowValue) {
    if let Some(named) = name_of(watched, value.group) {
        let fields = fields_of(named, value);
        let what = b"value was slow";
        watched.log.say(rt, Level::Warn, what, &fields);
    }
}

/// Says of each value that was slow since the last look how long it took.
pub fn say_slow<H: AllocGlobal + Eprint + Wait + Clock>(rt: &H, watched: &Watched<'_>) {
    let Some(slow) = slow_of(watched) else {
        return;
    };
    let SlowList { values, left_out } = slow.take(rt, rt.alloc());
    for value in &values {
        say_value(rt, watched, value);
    }
    watched.log.leave_out(left_out);
}
