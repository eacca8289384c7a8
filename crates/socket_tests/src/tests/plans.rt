//! What a test asks for: which server is to serve and how, what its clients do, and what the server is to count.

use super::actions::Actions;
use peer_fill::Report;
use peer_loop::Fillers;
use peer_runtime::Limits;
use std::time::Duration;

/// A server.
#[derive(Clone, Copy, Debug)]
pub enum Kind {
    /// Threads that serve one connection at a time, with the limits for everyone.
    Usual,
    /// The same, with the limits of the plan.
    Seats,
    /// Event loops, with the limits of the plan.
    Loops,
}

/// The server in threads and the one on loops.
pub const BOTH: [Kind; 2] = [Kind::Seats, Kind::Loops];

/// Limits that a test can wait for. None of them is meant to be met: also a loop that sleeps wakes for its tick only when the
/// client of the test has long given up.
pub fn patient() -> Limits {
    Limits {
        tick: Duration::from_secs(60),
        silence: Duration::from_secs(60),
        silence_when_full: Duration::from_secs(60),
        request_when_full: Duration::from_secs(60),
        unread: Duration::from_secs(60),
        linger: Duration::from_secs(10),
        pause: Duration::from_millis(1),
    }
}

/// The same, looked at so often that one of them can be a short one.
pub fn attentive() -> Limits {
    Limits {
        tick: Duration::from_millis(20),
        ..patient()
    }
}

/// Which calls of the source wait until they may go on, beside those for keys of their own name.
#[derive(Clone, Copy)]
pub enum Held {
    /// None.
    Nothing,
    /// All for numbers.
    Numbers,
    /// Those for the numbers 1 and 2.
    TwoNumbers,
    /// None, but each for a number lasts longer than the one before it.
    Longer,
}

/// How a server serves.
#[derive(Clone, Copy)]
pub struct Plan {
    /// How many event loops serve, where loops do.
    pub loops: usize,
    /// How many threads call the source.
    pub workers: usize,
    /// Which threads call it where loops serve.
    pub fillers: Fillers,
    /// How many connections are served at one moment.
    pub connections: usize,
    /// How many clients have each of these places, one after the other.
    pub rounds: u64,
    /// How many clients loops accept, or none where they serve until they are told to end.
    pub accepts: Option<u64>,
    /// Whether it was told to end before it begins.
    pub is_told: bool,
    pub cache_bytes: u64,
    pub limits: Limits,
    pub held: Held,
}

impl Plan {
    /// The same server with these limits.
    pub fn within(self, limits: Limits) -> Plan {
        Plan { limits, ..self }
    }

    /// The same server, which serves on so many loops where loops serve.
    pub fn on_loops(self, loops: usize) -> Plan {
        Plan { loops, ..self }
    }

    /// The same server, whose caches keep so many bytes each.
    pub fn caching(self, cache_bytes: u64) -> Plan {
        Plan {
            cache_bytes,
            ..self
        }
    }

    /// The same server, whose source waits at these keys.
    pub fn holding(self, held: Held) -> Plan {
        Plan { held, ..self }
    }

    /// The same server, whose loops call the source, and accept so many clients.
    pub fn filling(self, accepts: Option<u64>) -> Plan {
        Plan {
            fillers: Fillers::Loops,
            accepts,
            ..self
        }
    }

    /// The same server, which serves until it is told to end.
    pub fn endless(self) -> Plan {
        Plan {
            accepts: None,
            ..self
        }
    }
}

/// A patient server with these numbers, with one loop and with no cache.
pub fn plan_of(workers: usize, connections: usize, rounds: u64) -> Plan {
    Plan {
        loops: 1,
        workers,
        fillers: Fillers::Threads(workers),
        connections,
        rounds,
        accepts: Some((connections as u64).saturating_mul(rounds)),
        is_told: false,
        cache_bytes: 0,
        limits: patient(),
        held: Held::Nothing,
    }
}

/// How a server ended.
#[derive(Clone, Copy)]
pub enum Ended {
    Well(Report),
    /// It was refused for the number of what calls its source.
    Workers,
    /// It was refused for the number of what serves its connections.
    Conns,
    Badly,
}

/// How a server is to end.
#[derive(Clone, Copy)]
pub enum Expect {
    /// It counted so many requests, and its totals add up.
    Asked(u64),
    /// It counted this.
    Counted(Report),
    /// It reports something.
    Ends,
    /// It is refused for the number of what calls its source.
    Workers,
    /// It is refused for the number of what serves its connections.
    Conns,
}

// Whether each request was a hit, led or joined, none a stranger's, and each that led was called for, found again or left.
fn adds_up(report: &Report) -> bool {
    let asked = report
        .hits
        .wrapping_add(report.led)
        .wrapping_add(report.joined);
    let led = report
        .calls
        .wrapping_add(report.rehits)
        .wrapping_add(report.left);
    report.asked == asked && report.led == led && report.strangers == 0
}

impl Expect {
    /// Whether a server ended so.
    pub fn fits(self, ended: Ended) -> bool {
        match (self, ended) {
            (Expect::Asked(asked), Ended::Well(report)) => {
                report.asked == asked && adds_up(&report)
            }
            (Expect::Counted(counted), Ended::Well(report)) => report == counted,
            (Expect::Ends, Ended::Well(_)) => true,
            (Expect::Workers, Ended::Workers) => true,
            (Expect::Conns, Ended::Conns) => true,
            _ => false,
        }
    }
}

/// A server, what its clients do, and how it is to end.
#[derive(Clone, Copy)]
pub struct Case<'v> {
    pub kind: Kind,
    pub plan: Plan,
    pub actions: Actions<'v>,
    pub expect: Expect,
}

/// The case of these parts.
pub fn case_of(kind: Kind, plan: Plan, actions: Actions<'_>, expect: Expect) -> Case<'_> {
    Case {
        kind,
        plan,
        actions,
        expect,
    }
}
