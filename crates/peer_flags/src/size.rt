//! Sizes, as people write them.
ghost use Rattle.std.specs.Prelude.{◌≤◌, IfSome};

// The number that digits alone write.
fn digits(text: &str) -> Option<u64> {
    if text.is_empty() || !text.as_bytes().iter().all(|byte| byte.is_ascii_digit()) {
        return None;
    }
    text.parse::<u64>().ok()
}

/// How many bytes a size is: digits, and `KiB`, `MiB` or `GiB` behind them for times 1024, 1024 squared or cubed.
pub fn bytes_of(text: &str) -> Option<u64> {
    for (unit, times) in [("KiB", 1024u64), ("MiB", 1_048_576), ("GiB", 1_073_741_824)] {
        if let Some(number) = text.strip_suffix(unit) {
            return digits(number)?.checked_mul(times);
        }
    }
    digits(text)
}

/// The number from `least` to `most` that digits alone write.
pub fn number_of(text: &str, least: u64, most: u64) -> Option<u64>
    ensures { IfSome result (λ n. (least ≤ n) × (n ≤ most)) }
{
    match digits(text) {
        Some(number) if least <= number && number <= most => Some(number),
        _ => None,
    }
}
