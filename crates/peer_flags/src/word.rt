//! Words that a group of a file has as flags have them.
ghost use Rattle.std.specs.Prelude.{◌≤◌, ◌^◌, IfOk};
ghost use Rattle.peer_flags.specs.Times.{IsTime};

use crate::fault::WordFault;
use crate::size::{bytes_of, number_of};
use crate::time::time_of;
use std::time::Duration;

// The shortest and the longest time that is waited for, a millisecond and an hour, in nanoseconds.
const MIN_TIME: u64 = 1_000_000;

const MAX_TIME: u64 = 3_600_000_000_000;

// The most values of services that a thread which fetches has under way.
const MAX_UNDER_WAY: u64 = 1024;

/// The most keys of a cache.
pub(crate) const MAX_CACHE_KEYS: u64 = 4_294_967_296;

/// The time that a word means, from a millisecond to an hour.
pub fn time_in(word: &str) -> Result<Duration, WordFault>
    ensures { IfOk result IsTime }
{
    match time_of(word, MIN_TIME, MAX_TIME) {
        Some(time) => Ok(time),
        None => Err(WordFault::Time),
    }
}

/// The number of values under way that a word means, from 1 to 1024.
pub fn under_way_in(word: &str) -> Result<usize, WordFault>
    ensures { IfOk result (λ number. (1 ≤ number) × (number ≤ 1024)) }
{
    match number_of(word, 1, MAX_UNDER_WAY) {
        Some(number) => Ok(number as usize),
        None => Err(WordFault::Number(1, MAX_UNDER_WAY)),
    }
}

/// The number of bytes that a word means.
pub fn bytes_in(word: &str) -> Result<u64, WordFault> {
    match bytes_of(word) {
        Some(bytes) => Ok(bytes),
        None => Err(WordFault::Size),
    }
}

/// The number of keys of a cache that a word means, from 1 to 2^32.
pub fn cache_keys_in(word: &str) -> Result<u64, WordFault>
    ensures { IfOk result (λ number. (1 ≤ number) × (number ≤ 2 ^ 32)) }
{
    match number_of(word, 1, MAX_CACHE_KEYS) {
        Some(number) => Ok(number),
        None => Err(WordFault::Number(1, MAX_CACHE_KEYS)),
    }
}
