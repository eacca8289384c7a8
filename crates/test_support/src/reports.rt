//! Reports that tests expect.

use peer_fill::Report;

/// The report of so many asks, each of which led a flight and a call.
pub const fn all_called(asks: u64) -> Report {
    Report {
        asked: asks,
        hits: 0,
        led: asks,
        joined: 0,
        strangers: 0,
        calls: asks,
        rehits: 0,
        left: 0,
    }
}
