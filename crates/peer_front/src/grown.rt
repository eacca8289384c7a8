//! What was counted between two looks.

use crate::log::Log;
use peer_log::{Field, Level, Said};
use std::time::Clock;

/// A number that never falls, at two looks.
#[derive(Clone, Copy)]
pub struct Grown {
    pub more: u64,
    pub total: u64,
}

impl Grown {
    /// From this number to that.
    pub fn between(before: u64, now: u64) -> Grown {
        Grown {
            more: now.wrapping_sub(before),
            total: now,
        }
    }

    /// Whether there was more of it.
    pub fn is_more(self) -> bool {
        self.more > 0
    }
}

/// Says how much more of something there was, if there was more.
pub fn say_grown<H: AllocGlobal + Eprint + Clock>(
    rt: &H,
    log: &Log,
    level: Level,
    what: &[u8],
    grown: Grown,
) {
    if grown.is_more() {
        let fields = [
            Field {
                name: b"more",
                said: Said::Number(grown.more),
            },
            Field {
                name: b"total",
                said: Said::Number(grown.total),
            },
        ];
        log.say(rt, level, what, &fields);
    }
}
