//! Lines for trouble and for what changes, while it serves: once a second it is looked at what was counted.

use crate::end::End;
use crate::failing::{Failing, Watched};
use crate::grown::{Grown, say_grown};
use crate::slow::say_slow;
use peer_log::{Field, Level, Said};
use peer_stats::{CloseCounts, Counts, Stage};
use std::sync::Wait;
use std::time::{Clock, Duration};

// The seconds between two looks.
const TICK_SECONDS: u64 = 1;

// After how many looks it is said again what the end waits for.
const END_LOOKS: u32 = 10;

// What was counted that clients see.
#[derive(Clone, Copy)]
struct Seen {
    accepts_failed: u64,
    unknown_groups: u64,
    closes: CloseCounts,
    log_dropped: u64,
}

// What the last look found.
#[derive(Drop)]
struct Looked {
    before: Seen,
    failing: Failing,
    // Whether all connections were taken.
    is_full: bool,
    // The looks since it was said what the end waits for; none while it does not end.
    ending: Option<u32>,
}

impl Seen {
    // As it is when the server begins.
    const NONE: Seen = Seen {
        accepts_failed: 0,
        unknown_groups: 0,
        closes: CloseCounts::NONE,
        log_dropped: 0,
    };

    fn of(counts: &Counts) -> Seen {
        Seen {
            accepts_failed: counts.accepts.failed,
            unknown_groups: counts.replies.unknown_groups,
            closes: counts.closes,
            log_dropped: counts.log_dropped,
        }
    }
}

// Says how much more there was of what clients see, between two looks.
fn say_clients<H: AllocGlobal + Eprint + Clock>(
    rt: &H,
    watched: &Watched<'_>,
    before: &Seen,
    now: &Seen,
) {
    let log = watched.log;
    let grown = Grown::between(before.accepts_failed, now.accepts_failed);
    say_grown(rt, log, Level::Warn, b"accepts failed", grown);
    let grown = Grown::between(before.unknown_groups, now.unknown_groups);
    let what = b"requests for groups that are not served here";
    say_grown(rt, log, Level::Warn, what, grown);
    let grown = Grown::between(before.closes.silent, now.closes.silent);
    say_grown(rt, log, Level::Info, b"clients closed as silent", grown);
    let grown = Grown::between(before.closes.slow, now.closes.slow);
    say_grown(rt, log, Level::Warn, b"clients closed as slow", grown);
    let grown = Grown::between(before.closes.crowded, now.closes.crowded);
    let what = b"clients closed for want of connections";
    say_grown(rt, log, Level::Warn, what, grown);
    let grown = Grown::between(before.log_dropped, now.log_dropped);
    let what = b"replies without a line in the access log";
    say_grown(rt, log, Level::Warn, what, grown);
}

// Says how many connections are open.
fn say_open<H: AllocGlobal + Eprint + Clock>(
    rt: &H,
    watched: &Watched<'_>,
    level: Level,
    what: &[u8],
    open: u64,
) {
    let fields = [
        Field {
            name: b"open",
            said: Said::Number(open),
        },
        Field {
            name: b"limit",
            said: Said::Number(watched.facts.bounds.connections),
        },
    ];
    watched.log.say(rt, level, what, &fields);
}

impl Looked {
    // Says that all connections are taken, or no longer.
    fn look_at_room<H: AllocGlobal + Eprint + Clock>(
        &mut self,
        rt: &H,
        watched: &Watched<'_>,
        open: u64,
    ) {
        let is_full = open >= watched.facts.bounds.connections;
        if is_full && !self.is_full {
            let what = b"all connections are taken";
            say_open(rt, watched, Level::Warn, what, open);
        }
        if self.is_full && !is_full {
            let what = b"connections are free again";
            say_open(rt, watched, Level::Info, what, open);
        }
        self.is_full = is_full;
    }

    // Says what the end waits for, once it ends and then now and again.
    fn look_at_end<H: AllocGlobal + Eprint + Clock>(
        &mut self,
        rt: &H,
        watched: &Watched<'_>,
        open: u64,
    ) {
        if watched.counters.stage() != Stage::Ends {
            return;
        }
        let looks = match self.ending {
            Some(looks) if looks < END_LOOKS => looks.saturating_add(1),
            _ => {
                let what = b"ending, once clients have their replies";
                say_open(rt, watched, Level::Info, what, open);
                1
            }
        };
        self.ending = Some(looks);
    }

    // Looks at what was counted, and says what there was more of. After the end it says no more what that waits for.
    fn look<H: AllocGlobal + Eprint + Wait + Clock>(
        &mut self,
        rt: &H,
        watched: &Watched<'_>,
        has_ended: bool,
    ) {
        watched.log.begin_look(rt);
        let now = watched.counters.read();
        let seen = Seen::of(&now);
        say_clients(rt, watched, &self.before, &seen);
        self.before = seen;
        self.look_at_room(rt, watched, now.loops.connections);
        if !has_ended {
            self.look_at_end(rt, watched, now.loops.connections);
        }
        self.failing.look(rt, watched);
        say_slow(rt, watched);
    }
}

/// Tells of trouble and of changes once a second, until the end is told.
pub fn tell_troubles<H: AllocGlobal + Eprint + Wait + Clock>(
    rt: &H,
    watched: Watched<'_>,
    end: &End,
) {
    let mut looked = Looked {
        before: Seen::NONE,
        failing: Failing::NONE,
        is_full: false,
        ending: None,
    };
    for _ in rt.forever() {
        end.wait(rt, Duration::from_secs(TICK_SECONDS));
        let has_ended = end.is_told();
        looked.look(rt, &watched, has_ended);
        if has_ended {
            watched.log.begin_look(rt);
            return;
        }
    }
    unreachable!()
}
