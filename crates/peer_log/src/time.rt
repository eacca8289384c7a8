//! Times as lines have them: RFC 3339, UTC, with milliseconds.

use jiff::Timestamp;
use std::alloc::Global;
use std::time::Clock;

const FORM: &[u8] = b"%Y-%m-%dT%H:%M:%S.%3fZ";

/// The time of the clock, such as `2026-11-30T05:43:07.123Z`. None if the clock cannot be read, or memory is refused.
pub fn now_text<H: Clock>(clock: &H, alloc: Global) -> Option<String> {
    let now = Timestamp::now(clock).ok()?;
    now.strftime(alloc, FORM).ok()
}

/// The time that is so many milliseconds after the beginning of 1970. None if memory is refused, or if the year has not four digits.
pub fn time_text(alloc: Global, millis: i64) -> Option<String> {
    let time = Timestamp::from_millisecond(millis).ok()?;
    time.strftime(alloc, FORM).ok()
}
