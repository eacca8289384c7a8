//! Times, as people write them.
ghost use Rattle.std.specs.Prelude.{◌≡◌, ◌≤◌, ◌<◌, ◌^◌, length, option_map, IfSome};
ghost use Rattle.std.specs.Duration.{as_nanos};
ghost use Rattle.peer_flags.specs.Times.{digits_in, nanos_of, number_of, part_of_unit, unit_of, units, within};

use std::time::Duration;

const MILLISECOND: u64 = 1_000_000;

const SECOND: u64 = 1_000_000_000;

const MINUTE: u64 = 60_000_000_000;

// A number of a unit, which is in nanoseconds.
#[derive(Clone, Copy)]
struct Measure<'t> {
    number: &'t [u8],
    unit: u64,
}

impl<'t> Measure<'t> {
    // The measure that a text is, in seconds if it names no unit.
    fn of(text: &'t [u8]) -> Measure<'t>
        ensures number { result.number.now ≡ number_of text.now }
        ensures unit { result.unit ≡ unit_of text.now }
        ensures small { result.unit ≤ 60_000_000_000 }
    {
        if let Some(number) = text.strip_suffix(b"ms") {
            Measure {
                number,
                unit: MILLISECOND,
            }
        } else if let Some(number) = text.strip_suffix(b"s") {
            Measure {
                number,
                unit: SECOND,
            }
        } else if let Some(number) = text.strip_suffix(b"m") {
            Measure {
                number,
                unit: MINUTE,
            }
        } else {
            Measure {
                number: text,
                unit: SECOND,
            }
        }
    }
}

// The number that 1 to `most` digits write.
fn digits_of(text: &[u8], most: usize) -> Option<u64>
    requires { most ≤ 8 }
    ensures number { result ≡ digits_in most text.now }
    ensures small { IfSome result (λ n. n < 100_000_000) }
{
    if text.is_empty() || text.len() > most {
        return None;
    }
    let mut number = 0u64;
    for digit in text {
        if !digit.is_ascii_digit() {
            return None;
        }
        number = number * 10 + u64::from(*digit - b'0');
    }
    Some(number)
}

// So many units, in nanoseconds.
fn units_of(digits: &[u8], unit: u64) -> Option<u64>
    requires { unit ≤ 60_000_000_000 }
    ensures nanos { result ≡ units unit digits.now }
    ensures small { IfSome result (λ n. n < 6_000_000_000_000_000_000) }
{
    let number = digits_of(digits, 8)?;
    Some(number * unit)
}

// The part of a unit that digits after a point write, in nanoseconds.
fn part_of(digits: &[u8], unit: u64) -> Option<u64>
    requires { unit ≤ 60_000_000_000 }
    ensures nanos { result ≡ part_of_unit unit digits.now }
    ensures small { IfSome result (λ n. n < 6_000_000_000_000_000_000) }
{
    let number = digits_of(digits, 3)?;
    let parts = number * unit;
    match digits.len() {
        1 => Some(parts / 10),
        2 => Some(parts / 100),
        _ => Some(parts / 1000),
    }
}

// How many nanoseconds a text means.
fn nanos_in(text: &str) -> Option<u64>
    ensures { result ≡ nanos_of text.now }
{
    let Some((whole, after)) = text.split_once('.') else {
        let measure = Measure::of(text.as_bytes());
        return units_of(measure.number, measure.unit);
    };
    let measure = Measure::of(after.as_bytes());
    let whole = units_of(whole.as_bytes(), measure.unit)?;
    let part = part_of(measure.number, measure.unit)?;
    Some(whole + part)
}

/// The time from `least` to `most` nanoseconds that a text means: up to 8 digits, a point and up to 3 digits if it has a
/// fraction, and `ms`, `s` or `m`, or nothing for seconds.
pub fn time_of(text: &str, least: u64, most: u64) -> Option<Duration>
    ensures { option_map as_nanos result ≡ within least most (nanos_of text.now) }
{
    match nanos_in(text) {
        Some(nanos) if least <= nanos && nanos <= most => Some(Duration::from_nanos(nanos)),
        _ => None,
    }
}
